// Numbers and flags in words.
ghost use Rattle.std.specs.Prelude.{◌≡◌, ◌≤◌, IsSome, Some, length, slice_index, true, false, codes};

use std::str::FromStr;

// The number that the word is in decimal, with no sign and no leading zero.
pub fn read_number<N: FromStr>(word: &str) -> Option<N>
where
    N::Err: Drop,
    ensures digit { IsSome result → (48 ≤ slice_index word.now 0) × (slice_index word.now 0 ≤ 57) }
    ensures no_leading_zero { IsSome result → slice_index word.now 0 ≡ 48 → length word.now ≡ 1 }
{
    match word.as_bytes() {
        [b'0'] | [b'1'..=b'9', ..] => word.parse().ok(),
        _ => None,
    }
}

// The flag that the word is.
pub fn read_flag(word: &str) -> Option<bool>
    ensures no { result ≡ Some false → word.now ≡ codes "0" }
    ensures yes { result ≡ Some true → word.now ≡ codes "1" }
{
    match word {
        "0" => Some(false),
        "1" => Some(true),
        _ => None,
    }
}
