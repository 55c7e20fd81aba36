// The check's tests, one condition each.
ghost use Rattle.std.specs.Prelude.{◌≡◌, ◌≤◌, length};
ghost use Rattle.drop_plan.specs.Check.{among, includes, rising, within};
ghost use Rattle.drop_plan.specs.Queue.{size, total};

use crate::queue::Queue;

// Places rise strictly.
pub fn rise(places: &[u32]) -> bool
    ensures { result ≡ rising places.now }
{
    places.is_sorted_by(|place, next| *place < *next)
}

fn contains(places: &[u32], place: usize) -> bool
    ensures { result ≡ among place places.now }
{
    places.iter().any(|kept| *kept as usize == place)
}

impl Queue<'_> {
    // Places lie in the queue.
    pub fn reaches(&self, places: &[u32]) -> bool
        ensures { result ≡ within (size self.now) places.now }
    {
        let size = self.len();
        places.iter().all(|place| (*place as usize) < size)
    }

    // Every packet that is not droppable is among the places.
    pub fn is_kept_by(&self, places: &[u32]) -> bool
        ensures { result ≡ includes self.now places.now }
    {
        (0..self.len()).all(|place| self.is_droppable(place) || contains(places, place))
    }

    // The lengths at the places, added up.
    #[tactic(auto, using(crate::proofs::Lists::total_sum))]
    pub fn kept_length(&self, places: &[u32]) -> u64
        requires { length places.now ≤ 64 }
        ensures { result ≡ total self.now.lengths places.now }
    {
        places
            .iter()
            .map(|place| self.length_at(*place as usize))
            .sum()
    }
}
