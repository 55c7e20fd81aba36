// Parts of bytes.
ghost use Rattle.std.specs.Prelude.{◌≡◌};
ghost use Rattle.test_parts.specs.Parts.{part_of};

// The bytes from `from` up to `to`; none where they are not all there.
#[tactic(auto, unfolding(crate::specs::Parts::part_of))]
pub fn part<'a>(bytes: &'a [u8], from: usize, to: usize) -> &'a [u8]
    ensures { result.now ≡ part_of bytes.now from to }
{
    bytes.get(from..to).unwrap_or(&[])
}
