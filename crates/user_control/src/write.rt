// The bodies as they are written: a code, then its numbers.
ghost use Rattle.std.specs.Prelude.{◌≡◌, ◌≤◌, length};
ghost use Rattle.fields.specs.Writing.{outcome, writing};
ghost use Rattle.user_control.specs.Answer.{write_answer};
ghost use Rattle.user_control.specs.Body.{body_of};
ghost use Rattle.user_control.specs.Code.{number_of};

use crate::WriteError;
use crate::code::Code;
use fields::put_number;

pub fn write_numbers(code: Code, numbers: &[u32], output: &mut [u8]) -> Result<usize, WriteError>
    requires { length numbers.now ≤ 2 }
    ensures { outcome (write_answer result) output.new ≡ writing (body_of (number_of code) numbers.now) output.old }
{
    let needed = 2 + 4 * numbers.len();
    if output.len() < needed {
        return Err(WriteError::OutputTooShort);
    }
    put_number(code.number(), 2, output, 0);
    for (i, number) in numbers.iter().enumerate() {
        put_number(*number, 4, output, 2 + 4 * i);
    }
    Ok(needed)
}
