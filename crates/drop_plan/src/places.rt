// Places in a queue.
ghost use Rattle.std.specs.Prelude.{◌≡◌, ◌≤◌, length, replicate, take};
ghost use Rattle.fields.specs.Output.{over};
ghost use Rattle.drop_plan.specs.Places.{Filled};
ghost use Rattle.drop_plan.specs.Queue.{most};

use crate::MOST;
use std::marker::Model;

// At most 64 places, one behind the other in an array of 64 whose others are 0.
#[derive(Clone, Copy)]
pub struct Places {
    array: [u32; MOST],
    count: usize,
}

impl Model for Places {
    ghost use Rattle.std.specs.Prelude.{ℕ, List, length, replicate, take};
    ghost use Rattle.fields.specs.Output.{over};
    ghost use Rattle.drop_plan.specs.Places.{Filled, array_back, first_length};
    ghost use Rattle.drop_plan.specs.Queue.{most};

    ghost Value = { List ℕ };

    ghost view = { λ p. take p.count p.array };

    ghost invariant = { λ p. Filled p.count p.array };

    ghost inverse = { λ ps. record { array = over ps (replicate most 0); count = length ps } };

    ghost inverse_ok = { λ p h. rw (array_back p.count p.array h, first_length p.count p.array h) };
}

impl Places {
    // The first of an array whose others are 0.
    pub(crate) fn first_of(count: usize, array: [u32; MOST]) -> Self
        requires { Filled count array }
        ensures { result ≡ take count array }
    {
        Places { array, count }
    }

    // The places.
    pub fn as_slice(&self) -> &[u32]
        ensures all { result.now ≡ self.now }
        ensures few { length result.now ≤ most }
    {
        &self.array[..self.count]
    }

    // The places, and 0 behind them.
    pub fn as_array(&self) -> &[u32; MOST]
        ensures { result.now ≡ over self.now (replicate most 0) }
    {
        &self.array
    }
}
