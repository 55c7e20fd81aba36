// What a byte of a header does to a decoder.
ghost use Rattle.std.specs.Prelude.{◌≡◌};
ghost use Rattle.byte_machine.specs.Reader.{at, go};
ghost use Rattle.held.specs.Done.{done_of, meant_by, refusal_number};
ghost use Rattle.held.specs.Numbers.{reader_from};
ghost use Rattle.held.specs.Stages.{stage_of};

use crate::numbers::Held;
use crate::stage::Stage;
use crate::table::NOWHERE;

// What a byte settled: nothing, the end of a chunk, or that of a message.
#[derive(Clone, Copy, Debug, PartialEq, Eq)]
pub enum Event {
    Go,
    Chunk,
    Message,
}

// Why a byte is refused, with the number of document 01's table. No call makes a decoder of which a guard is told.
#[derive(Clone, Copy, Debug, PartialEq, Eq)]
pub enum ChunkRefusal {
    UnknownStream = 9,
    TooManyStreams = 10,
    OtherStream = 11,
    OtherHeader = 12,
    SmallExtendedDelta = 13,
    LengthOverRoom = 14,
    Guard = 255,
}

impl ChunkRefusal {
    // Kept: each enum of refusals casts its own number, here and in other crates: a trait would take an impl for each all the same.
    pub fn number(self) -> u32
        ensures { result ≡ refusal_number self }
    {
        self as u32
    }
}

// What a byte that is not refused does: the decoder after it, what it settled, and the place where its header becomes a row.
#[derive(Clone, Copy, Debug, PartialEq, Eq)]
pub struct Done {
    pub held: Held,
    pub event: Event,
    // Kept: `NOWHERE` and no Option, as any place may be lent, and `meant_by` in specs/Done.antt has one answer for each number
    pub place: u32,
}

// A byte that only goes on, to another stage.
pub fn goes(h: Held, stage: Stage) -> Done
    ensures { Ok (meant_by result) ≡ done_of h (go (at (reader_from h) (stage_of stage))) }
{
    Done {
        held: Held { stage, ..h },
        event: Event::Go,
        place: NOWHERE,
    }
}
