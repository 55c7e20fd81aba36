// How an input is cut: into pieces of one length, or of lengths that look like chance.
ghost use Rattle.std.specs.Prelude.{◌≡◌, ◌<◌, ℕ};

#[derive(Clone, Copy, Debug)]
pub enum Cut {
    Even(usize),
    // after this number, which comes to each of 2^32 before it begins again
    Random(u32),
}

impl Cut {
    // The first of the lengths that look like chance.
    pub fn random() -> Self
        ensures { result ≡ Cut.Random 1 }
    {
        Cut::Random(1)
    }

    // How long the next piece is.
    pub fn next_length(&mut self) -> usize
        ensures even { (length : ℕ) → self.old ≡ Cut.Even length → result ≡ length }
        ensures random { (seed : ℕ) → self.old ≡ Cut.Random seed → 0 < result }
    {
        match self {
            Cut::Even(length) => *length,
            Cut::Random(seed) => {
                let length = some_length(*seed >> 8);
                *seed = seed.wrapping_mul(1664525).wrapping_add(1013904223);
                length
            }
        }
    }
}

// A length, at least 1: short ones are as frequent as long ones.
fn some_length(chance: u32) -> usize
    ensures { 0 < result }
{
    let limit = [3, 40, 300, 5000][chance as usize % 4];
    chance as usize / 4 % limit + 1
}
