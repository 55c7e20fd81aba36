// Bytes in lent slices: numbers, and runs of bytes, put at a place and read from a place.
#![tactic(auto)]

ghost use Rattle.std.specs.Prelude.{◌≡◌, ◌%◌, ◌^◌, length, take, drop};
ghost use Rattle.fields.specs.Endian.{big_endian, number, swapped};
ghost use Rattle.fields.specs.Output.{stored};

// The number that the bytes mean; of more than four, its last 32 bits.
fn read_number(bytes: &[u8]) -> u32
    ensures { result ≡ number bytes.now % 2 ^ 32 }
{
    let mut value: u32 = 0;
    for byte in bytes {
        value = value % 16777216 * 256 + u32::from(*byte);
    }
    value
}

// Fills the whole of `output` with the last bytes of `value`.
fn write_number(value: u32, output: &mut [u8])
    ensures { output.new ≡ big_endian (length output.old) value }
{
    let mut rest = value;
    for i in (0..output.len()).rev() {
        output[i] = (rest % 256) as u8;
        rest /= 256;
    }
}

// The number of the `width` bytes from `at` on, or of those that are there.
pub fn number_at(bytes: &[u8], at: usize, width: usize) -> u32
    ensures { result ≡ number (take width (drop at bytes.now)) % 2 ^ 32 }
{
    let Some(rest) = bytes.get(at..) else {
        return 0;
    };
    read_number(&rest[..width.min(rest.len())])
}

// Puts the last `width` bytes of `value` from `at` on; where the output does not reach that far it stays as it is.
pub fn put_number(value: u32, width: usize, output: &mut [u8], at: usize)
    ensures { output.new ≡ stored output.old at (big_endian width value) }
{
    if width <= output.len() && at <= output.len() - width {
        write_number(value, &mut output[at..at + width]);
    }
}

// The number of the same four bytes in the other order.
pub fn swap_bytes(value: u32) -> u32
    ensures { result ≡ swapped value }
{
    value.swap_bytes()
}

// Fills the whole of `output` with the bytes.
// Kept: a loop by hand, as with the library's copy an archive for C needs `memmove` from outside.
fn copy(bytes: &[u8], output: &mut [u8])
    requires { length output.old ≡ length bytes.now }
    ensures { output.new ≡ bytes.now }
{
    for i in 0..bytes.len() {
        output[i] = bytes[i];
    }
}

// Puts the bytes from `at` on; where the output does not reach that far it stays as it is.
pub fn put_bytes(bytes: &[u8], output: &mut [u8], at: usize)
    ensures { output.new ≡ stored output.old at bytes.now }
{
    if bytes.len() <= output.len() && at <= output.len() - bytes.len() {
        copy(bytes, &mut output[at..at + bytes.len()]);
    }
}
