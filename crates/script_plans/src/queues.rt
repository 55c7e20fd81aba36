// A queue and places, as lines say them in bytes.
use arrayvec::ArrayVec;

// A queue of more packets, and more places, fit on no line.
const MOST_PACKETS: usize = 26214;

const MOST_PLACES: usize = 32768;

// What a line says of a plan. One is kept from line to line: its vectors are long, and stay where they are.
// Kept: two vectors of the queue, as drop_plan's `judge` and `propose` take two slices.
#[derive(Drop)]
pub struct Plan {
    // the packets' lengths, oldest first, and their droppable marks
    lengths: ArrayVec<u32, MOST_PACKETS>,
    droppable: ArrayVec<bool, MOST_PACKETS>,
    // the places to keep
    places: ArrayVec<u32, MOST_PLACES>,
}

impl Plan {
    // Before the first line.
    pub fn new() -> Self {
        Plan {
            lengths: ArrayVec::new(),
            droppable: ArrayVec::new(),
            places: ArrayVec::new(),
        }
    }

    // Takes the packets that the bytes say, five a packet: its length in four, then 1 or 0.
    pub fn read_queue(&mut self, bytes: &[u8]) -> Option<()> {
        if bytes.len() % 5 != 0 {
            return None;
        }
        self.lengths.clear();
        self.droppable.clear();
        for packet in bytes.chunks_exact(5) {
            let [a, b, c, d, mark] = packet else {
                return None;
            };
            let length = u32::from_be_bytes([*a, *b, *c, *d]);
            self.lengths.try_push(length).ok()?;
            self.droppable.try_push(read_mark(*mark)?).ok()?;
        }
        Some(())
    }

    // Takes the places that the bytes say, four a place.
    pub fn read_places(&mut self, bytes: &[u8]) -> Option<()> {
        if bytes.len() % 4 != 0 {
            return None;
        }
        self.places.clear();
        for place in bytes.chunks_exact(4) {
            let [a, b, c, d] = place else {
                return None;
            };
            self.places
                .try_push(u32::from_be_bytes([*a, *b, *c, *d]))
                .ok()?;
        }
        Some(())
    }

    // The lengths and the marks.
    pub fn queue(&self) -> (&[u32], &[bool]) {
        (self.lengths.as_slice(), self.droppable.as_slice())
    }

    // The places.
    pub fn places(&self) -> &[u32] {
        self.places.as_slice()
    }
}

// The droppable mark that the byte is.
fn read_mark(byte: u8) -> Option<bool> {
    match byte {
        0 => Some(false),
        1 => Some(true),
        _ => None,
    }
}
