// Bytes as hex digits.
use hex::encode_to_slice;
use std::fmt;
use std::fmt::Write;
use std::str::from_utf8;

// How many bytes are put at a time.
const PIECE_LENGTH: usize = 64;

// Bytes whose text is two digits a byte, and a dash for none.
#[derive(Clone, Copy)]
pub struct Hex<'a>(pub &'a [u8]);

impl fmt::Display for Hex<'_> {
    fn fmt<W: Write>(&self, f: &mut fmt::Formatter<W>) -> fmt::Result {
        if self.0.is_empty() {
            return f.write_str("-");
        }
        let mut digits = [0; 2 * PIECE_LENGTH];
        for piece in self.0.chunks(PIECE_LENGTH) {
            let digits = digits.get_mut(..2 * piece.len()).ok_or(fmt::Error)?;
            encode_to_slice(piece, digits).map_err(|_| fmt::Error)?;
            f.write_str(from_utf8(digits).map_err(|_| fmt::Error)?)?;
        }
        Ok(())
    }
}
