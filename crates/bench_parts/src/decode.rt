// A decoder's way through an input.
ghost use Rattle.std.specs.Prelude.{◌≤◌, ◌<◌, length};

use crate::tally::Tally;
use in_place::Answer;
use test_calls::used_of;

// Offers all of `input` to calls, piece by piece; what a call left unread is offered again. A piece of 0 bytes is all that is left.
pub fn decode_all<F: FnMut(&[u8], &mut [u8]) -> Answer>(
    input: &[u8],
    piece: usize,
    every: usize,
    payload: &mut [u8],
    mut next_message: F,
) -> Tally
    requires { F.IsAlwaysCallable next_message }
    ensures most { result.calls ≤ length input.now }
    ensures least { 0 < length input.now → 0 < result.calls }
{
    let mut tally = Tally::default();
    let mut unread = input;
    // how many bytes of the piece are unread
    let mut left = 0;
    // Kept: no `for`, as each step is as long as what its call used.
    while !unread.is_empty() {
        if left == 0 {
            left = if piece == 0 {
                unread.len()
            } else {
                piece.min(unread.len())
            };
        }
        let answer = next_message(&unread[..left], payload);
        tally.answer(answer, payload, every);
        let used = used_of(answer);
        if used == 0 || left < used {
            break;
        }
        unread = &unread[used..];
        left -= used;
    }
    tally
}
