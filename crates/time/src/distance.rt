// How far apart two timestamps are.
ghost use Rattle.std.specs.Prelude.{◌≡◌};
ghost use Rattle.time.specs.Distance.{wrapped, distance};

// Timestamps at most this far apart compare as numbers.
const MAX_ADJACENT_VALUE: i64 = (1 << 31) - 1;

// How many timestamps there are.
const ROUND: i64 = 1 << 32;

// A plain difference, a round less or a round more where it is beyond MAX_ADJACENT_VALUE.
#[tactic(auto, unfolding(crate::specs::Distance::wrapped))]
fn wrap(plain: i64) -> i64
    ensures { result ≡ wrapped plain }
{
    if plain > MAX_ADJACENT_VALUE {
        plain - ROUND
    } else if plain < -MAX_ADJACENT_VALUE {
        plain + ROUND
    } else {
        plain
    }
}

// From the first to the second: positive where the second is later.
pub fn distance_of(first: u32, second: u32) -> i64
    ensures { result ≡ distance first second }
{
    wrap(i64::from(second) - i64::from(first))
}
