// A queue of packets, and what is known of the packet at a place, whether the queue has it or not.
ghost use Rattle.std.specs.Prelude.{◌≡◌, ◌^◌, ◌<◌, ◌≤◌, MatchResult};
ghost use Rattle.drop_plan.specs.declared.error.PlanError.TheVariants.{QueueTooLong};
ghost use Rattle.drop_plan.specs.Queue.{droppable, length_at, most, queue, size};

use crate::{MOST, PlanError};
use std::marker::Model;

// At most 64 packets: their lengths, oldest first, and their droppable marks.
#[derive(Drop)]
pub struct Queue<'a> {
    lengths: &'a [u32],
    droppable: &'a [bool],
}

impl<'a> Model for Queue<'a> {
    ghost use Rattle.std.specs.Prelude.{◌≤◌, length};
    ghost use Rattle.drop_plan.specs.Queue.{Queue as Packets, most, queue};

    ghost Value = { Packets };

    ghost view = { λ q. queue q.lengths.now q.droppable.now };

    ghost invariant = { λ q. length q.lengths.now ≤ most };
}

impl<'a> Queue<'a> {
    // Refuses a queue of more than 64 packets.
    pub fn new(lengths: &'a [u32], droppable: &'a [bool]) -> Result<Queue<'a>, PlanError>
        ensures { MatchResult result (λ q. (q ≡ queue lengths.now droppable.now) × (size q ≤ most))
            (λ e. (e ≡ QueueTooLong) × (most < size (queue lengths.now droppable.now))) }
    {
        if MOST < lengths.len() {
            return Err(PlanError::QueueTooLong);
        }
        Ok(Queue { lengths, droppable })
    }

    // How many packets it has.
    pub fn len(&self) -> usize
        ensures size { result ≡ size self.now }
        ensures few { result ≤ most }
    {
        self.lengths.len()
    }

    // A packet without a mark is not droppable.
    pub fn is_droppable(&self, place: usize) -> bool
        ensures { result ≡ droppable self.now place }
    {
        self.droppable.get(place).copied().unwrap_or(false)
    }

    // 0 where the queue does not reach so far.
    pub fn length_at(&self, place: usize) -> u64
        ensures length { result ≡ length_at self.now place }
        ensures small { result < 2 ^ 32 }
    {
        self.lengths.get(place).copied().map_or(0, u64::from)
    }
}
