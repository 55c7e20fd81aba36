// The way in: the bytes on the wire in pieces, and each message beside the one that was kept.
use crate::encode::Line;
use crate::plan::plan;
use crate::shown::Shown;
use in_place::Message;
use std::{io, slice};
use test_calls::{Cut, Decoder, Stop, Walk, size_told};

// The messages that are to come.
#[derive(Drop)]
struct Coming<'a> {
    // the places of their calls
    places: slice::Iter<'a, usize>,
    // how many came
    count: usize,
    // whether each is written
    is_told: bool,
}

// Where a way in ended.
#[derive(Clone, Copy)]
pub struct End {
    pub count: usize,
    pub used: usize,
    // whether nothing went wrong
    pub is_good: bool,
    // whether it is the end of a message
    pub may_tell: bool,
}

// The room of the decoder: the longest payload of the plan.
const ROOM: u32 = 200;

impl Coming<'_> {
    // Whether a message is the next one that was kept, its payload byte for byte.
    fn is_next(&mut self, message: Message, payload: &[u8]) -> bool {
        let Some(&place) = self.places.next() else {
            return false;
        };
        let Some(&call) = plan().get(place) else {
            return false;
        };
        let mut bytes = [0; 256];
        call.is_of(message) && payload == call.payload(place, &mut bytes)
    }

    // Takes a message. A size that it tells is told to the decoder.
    fn take(
        &mut self,
        rt: &impl Print,
        decoder: &mut Decoder,
        message: Message,
        payload: &[u8],
    ) -> Result<(), Stop> {
        if self.is_told {
            println!(rt; "{}", Shown { message, payload })?;
        }
        if !self.is_next(message, payload) {
            return Err(Stop::NotKept);
        }
        self.count = self.count.saturating_add(1);
        if let Some(size) = size_told(message, payload) {
            decoder.set_max_chunk_size(size).map_err(Stop::SizeRefused)?;
            if self.is_told {
                println!(rt; "told {size}: taken")?;
            }
        }
        Ok(())
    }
}

// Offers all bytes of the wire to a new decoder in pieces, and writes each message where it `is_told` to.
pub fn decode_all(rt: &impl Print, line: Line<'_>, piece: usize, is_told: bool) -> io::Result<End> {
    let mut decoder = Decoder::new(ROOM);
    let mut payload = [0; 256];
    let mut walk = Walk::new(line.wire, Cut::Even(piece));
    let mut coming = Coming {
        places: line.kept.iter(),
        count: 0,
        is_told,
    };
    let walked = walk.each_message(&mut decoder, &mut payload, |decoder, message, payload| {
        coming.take(rt, decoder, message, payload)
    });
    let is_good = walked.is_ok();
    if let Err(stop) = walked {
        stop.tell(rt)?;
    }
    Ok(End {
        count: coming.count,
        used: walk.used,
        is_good,
        may_tell: decoder.may_tell(),
    })
}

// Makes the way in with pieces of at most `piece` bytes. It is good if all that was kept came out, and every byte was used.
fn decode(rt: &impl Print, line: Line<'_>, piece: usize) -> io::Result<End> {
    println!(rt; "pieces of {piece}")?;
    let end = decode_all(rt, line, piece, true)?;
    let told = if end.may_tell { "a size" } else { "no size" };
    println!(rt;
        "used {} of {}, {told} may be told",
        end.used,
        line.wire.len()
    )?;
    let is_whole = end.used == line.wire.len() && end.count == line.kept.len();
    Ok(End {
        is_good: end.is_good && end.may_tell && is_whole,
        ..end
    })
}

// Makes the way in three times: byte by byte, by sevens and in one piece. The answer is the first that went wrong, or else the last.
pub fn decode_thrice(rt: &impl Print, line: Line<'_>) -> io::Result<End> {
    let ones = decode(rt, line, 1)?;
    let sevens = decode(rt, line, 7)?;
    let whole = decode(rt, line, line.wire.len())?;
    let went_wrong = [ones, sevens].into_iter().find(|end| !end.is_good);
    Ok(went_wrong.unwrap_or(whole))
}
