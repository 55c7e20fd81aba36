// Why a call is refused that is not refused by its bytes.
ghost use Rattle.std.specs.Prelude.{Some};
ghost use Rattle.in_place.specs.Text.{text_of};

use std::error::Error;
use std::fmt;

// The number of a refusal, which of a closed decoder is the one that it is closed with.
// Kept: a number and no enum, since any may lie in the numbers that are lent (`LentTold` in specs/Answer.antt).
#[derive(Clone, Copy, Debug, PartialEq, Eq)]
pub struct Refusal {
    pub number: u32,
}

// Those that no byte settles.
impl Refusal {
    pub const CHUNK_SIZE_ZERO: Refusal = Refusal { number: 3 };

    pub const CHUNK_SIZE_TOO_LARGE: Refusal = Refusal { number: 4 };

    pub const ROOM_OUTSIDE_LIMITS: Refusal = Refusal { number: 6 };

    pub const BUFFER_TOO_SHORT: Refusal = Refusal { number: 7 };

    pub const INSIDE_MESSAGE: Refusal = Refusal { number: 8 };
}

impl fmt::Display for Refusal {
    ghost output = { λ e. Some (text_of e) };

    fn fmt<W: fmt::Write>(&self, f: &mut fmt::Formatter<W>) -> fmt::Result {
        write!(f, "refused {}", self.number)
    }
}

impl Error for Refusal {}
