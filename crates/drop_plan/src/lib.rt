// What to drop of a queue of packets, so that the rest keeps within a limit of bytes: a planner that proposes, and a small check
// that judges any proposal. A queue is the packets' lengths, oldest first, and their droppable marks; a proposal is the places to
// keep, counted from 0.
#![tactic(auto)]

ghost use Rattle.std.specs.Prelude.{◌≡◌};
ghost use Rattle.drop_plan.specs.Answer.{outcome_of, verdict_of};
ghost use Rattle.drop_plan.specs.Check.{judged};
ghost use Rattle.drop_plan.specs.Plan.{planned};
ghost use Rattle.drop_plan.specs.Queue.{queue};

mod error;
mod judging;
mod keep;
mod places;
mod queue;

pub use crate::error::PlanError;
use crate::judging::rise;
pub use crate::places::Places;
use crate::queue::Queue;

// A queue holds so many packets at most.
pub const MOST: usize = 64;

// Judges a proposal, whoever made it: `Ok` where it is accepted.
// Kept: two slices, as `queue` of specs/Queue.antt takes them: a slice of packets would shut out slices of different lengths.
#[tactic(auto, using(std::proofs::lemmas::Bool::Decides::nat_tests), unfolding(crate::specs::Check::judged))]
pub fn judge(
    lengths: &[u32],
    droppable: &[bool],
    limit: u64,
    places: &[u32],
) -> Result<(), PlanError>
    ensures { verdict_of result ≡ judged (queue lengths.now droppable.now) limit places.now }
{
    let queue = Queue::new(lengths, droppable)?;
    if !rise(places) {
        return Err(PlanError::PlacesDoNotRise);
    }
    if !queue.reaches(places) {
        return Err(PlanError::PlaceOutsideQueue);
    }
    if !queue.is_kept_by(places) {
        return Err(PlanError::UndroppableLeftOut);
    }
    if limit < queue.kept_length(places) {
        return Err(PlanError::OverLimit);
    }
    Ok(())
}

// Drops the oldest droppable packets until the rest fits, and proposes the places of the rest; `None` where the packets that are
// not droppable do not fit.
// Kept: two slices, as in `judge`.
#[tactic(auto, using(crate::proofs::Rest::propose_steps), unfolding(crate::specs::Plan::planned))]
pub fn propose(lengths: &[u32], droppable: &[bool], limit: u64) -> Result<Option<Places>, PlanError>
    ensures { outcome_of result ≡ planned (queue lengths.now droppable.now) limit }
{
    let queue = Queue::new(lengths, droppable)?;
    if limit < queue.rest_length(queue.len()) {
        return Ok(None);
    }
    let start = queue.first_to_stay(limit);
    Ok(Some(queue.rest(start)))
}
