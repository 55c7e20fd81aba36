// How far a call of the decoder went.
use in_place::Answer;

// How many bytes the call used.
// Kept: a match, as in_place's `Answer` has three cases and in each what was used.
pub fn used_of(answer: Answer) -> usize {
    match answer {
        Answer::Message { used, .. } | Answer::More { used } | Answer::Refused { used, .. } => used,
    }
}
