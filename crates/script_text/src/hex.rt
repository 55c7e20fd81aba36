// Bytes as hex digits.
ghost use Rattle.std.specs.Prelude.{◌≡◌, ◌/◌, IfSome, length};

// The value of a digit, a letter of either case.
fn digit_value(byte: u8) -> Option<u8> {
    match byte {
        b'0'..=b'9' => Some(byte - b'0'),
        b'A'..=b'F' => Some(byte - b'A' + 10),
        b'a'..=b'f' => Some(byte - b'a' + 10),
        _ => None,
    }
}

// The byte that two digits say.
fn read_byte(pair: &[u8]) -> Option<u8> {
    let [high, low] = *pair else {
        return None;
    };
    Some(digit_value(high)? << 4 | digit_value(low)?)
}

// The bytes that the word says, put at the start of `bytes`: none for a dash.
pub fn read_hex<'a>(word: &str, bytes: &'a mut [u8]) -> Option<&'a [u8]>
    ensures { IfSome result (λ said. length said.now ≡ length word.now / 2) }
{
    if word == "-" {
        return Some(&[]);
    }
    let digits = word.as_bytes();
    if digits.is_empty() || digits.len() % 2 == 1 {
        return None;
    }
    let said = bytes.get_mut(..digits.len() / 2)?;
    for (byte, pair) in said.iter_mut().zip(digits.chunks_exact(2)) {
        *byte = read_byte(pair)?;
    }
    Some(said)
}
