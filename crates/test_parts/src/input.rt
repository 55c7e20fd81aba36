// Bytes of a file or of standard input.
ghost use Rattle.std.specs.Prelude.{◌≤◌, IfOk, length};

use std::io;
use std::io::Read;

// Reads until `bytes` is full or the input ends, and answers how many bytes it put at the start.
// Kept: a loop by hand, since it counts the bytes that came, and std reads up to the end of an input only into a Vec.
pub fn read_full(input: &mut impl Read, bytes: &mut [u8]) -> io::Result<usize>
    ensures { IfOk result (λ count. count ≤ length bytes.new) }
{
    let mut count = 0;
    while count < bytes.len() {
        let more = input.read(&mut bytes[count..])?;
        if more == 0 {
            return Ok(count);
        }
        count += more;
    }
    Ok(count)
}
