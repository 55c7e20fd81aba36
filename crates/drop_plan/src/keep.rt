// The planner's plan: where the packets to drop end, and the places that stay.
ghost use Rattle.std.specs.Prelude.{◌≡◌, ◌^◌, ◌<◌, cond};
ghost use Rattle.drop_plan.specs.Plan.{rest, staying, until};
ghost use Rattle.drop_plan.specs.Queue.{length_at, size, total};

use crate::queue::Queue;
use crate::{MOST, Places};

impl Queue<'_> {
    // Whether a packet stays where the droppable ones before `start` are dropped.
    fn stays(&self, start: usize, place: usize) -> bool
        ensures { result ≡ staying self.now.marks start place }
    {
        start <= place || !self.is_droppable(place)
    }

    // The length of a packet that stays, and 0 of one that is dropped.
    fn staying_length(&self, start: usize, place: usize) -> u64
        ensures length { result ≡ cond (staying self.now.marks start place) (length_at self.now place) 0 }
        ensures small { result < 2 ^ 32 }
    {
        if self.stays(start, place) {
            self.length_at(place)
        } else {
            0
        }
    }

    // The lengths of those that stay, added up.
    pub fn rest_length(&self, start: usize) -> u64
        ensures { result ≡ total self.now.lengths (rest self.now start) }
    {
        (0..self.len())
            .map(|place| self.staying_length(start, place))
            .sum()
    }

    // The place before which the droppable packets have to be dropped for the rest to fit; the end of the queue where none does.
    #[tactic(auto, using(crate::proofs::Rest::search_steps))]
    pub fn first_to_stay(&self, limit: u64) -> usize
        ensures { result ≡ until (size self.now) self.now limit 0 }
    {
        let mut left = self.rest_length(0);
        for start in 0..self.len() {
            if left <= limit {
                return start;
            }
            if self.is_droppable(start) {
                left -= self.length_at(start);
            }
        }
        self.len()
    }

    // The places of those that stay.
    #[tactic(auto, unfolding(crate::specs::Queue::those, crate::specs::Queue::places_from))]
    pub fn rest(&self, start: usize) -> Places
        ensures { result ≡ rest self.now start }
    {
        let mut array = [0; MOST];
        let mut count = 0;
        for place in 0..self.len() {
            if self.stays(start, place) {
                array[count] = place as u32;
                count += 1;
            }
        }
        Places::first_of(count, array)
    }
}
