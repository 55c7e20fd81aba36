// Body lengths by control code.
ghost use Rattle.std.specs.Prelude.{◌≡◌};
ghost use Rattle.user_control.specs.Code.{number_of};
ghost use Rattle.user_control.specs.Reading.{body_length};

use crate::code::Code;

// Kept: 0 where no event has the code, since body lengths are a const table by a project rule; a `Code` never meets a 0.
const BODY_LENGTHS: [usize; 33] = [
    6, 6, 6, 10, 6, 0, 6, 6, 0, 0, 0, 0, 0, 0, 0, 0, 0, 0, 0, 0, 0, 0, 0, 0, 0, 0, 0, 0, 0, 0, 0,
    6, 6,
];

pub fn body_length(code: Code) -> usize
    ensures { result ≡ body_length (number_of code) }
{
    BODY_LENGTHS[code.number() as usize]
}
