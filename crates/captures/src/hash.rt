// A payload's hash.
use sha2::{Digest, Sha256};
use std::fmt;

// A SHA-256, which is written in hex.
#[derive(Clone, Copy)]
pub struct Hash([u8; 32]);

impl Hash {
    pub fn of(payload: &[u8]) -> Self {
        Hash(Sha256::digest(payload))
    }
}

impl fmt::Display for Hash {
    fn fmt<W: fmt::Write>(&self, f: &mut fmt::Formatter<W>) -> fmt::Result {
        for byte in self.0 {
            write!(f, "{byte:02x}")?;
        }
        Ok(())
    }
}
