// Words: what stands between spaces. Two neighbouring spaces, and one at an end, have an empty word at their side.
ghost use Rattle.std.specs.Prelude.{◌≤◌, IfSome};
ghost use Rattle.arrayvec.specs.ArrayVec.{array_vec_len};

use arrayvec::ArrayVec;
use std::str::from_utf8;

// The most words that a call has.
pub const MOST_WORDS: usize = 9;

// The line's words. A line that is no text, or has more words than a call, is none of the calls.
pub fn split_words(line: &[u8]) -> Option<ArrayVec<&str, MOST_WORDS>>
    ensures { IfSome result (λ found. array_vec_len found ≤ 9) }
{
    let mut words = ArrayVec::new();
    for word in from_utf8(line).ok()?.split(' ') {
        words.try_push(word).ok()?;
    }
    Some(words)
}
