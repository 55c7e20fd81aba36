// The calls of the planner and of its check.
use crate::queues::Plan;
use drop_plan::{Places, PlanError};
use script_said::Refused;
use script_text::{read_hex, read_number};
use std::fmt;
use std::fmt::Write;

// Places whose text is four bytes a place in hex, and a dash for none.
// Kept: hex here, in captures and trip: items of another width, or few bytes, each by one `write!` in a loop.
#[derive(Clone, Copy)]
struct Hex<'a>(&'a [u32]);

impl fmt::Display for Hex<'_> {
    fn fmt<W: Write>(&self, f: &mut fmt::Formatter<W>) -> fmt::Result {
        if self.0.is_empty() {
            return f.write_str("-");
        }
        for place in self.0 {
            write!(f, "{place:08x}")?;
        }
        Ok(())
    }
}

// Puts what the planner proposes.
fn put_proposal(text: &mut impl Write, proposal: Result<Option<Places>, PlanError>) -> fmt::Result {
    match proposal {
        Ok(Some(places)) => {
            let places = places.as_slice();
            write!(text, "keep {} {}", places.len(), Hex(places))
        }
        Ok(None) => text.write_str("can't"),
        Err(e) => write!(text, "{}", Refused(e.number())),
    }
}

// Puts what the check says.
fn put_verdict(text: &mut impl Write, verdict: Result<(), PlanError>) -> fmt::Result {
    match verdict {
        Ok(()) => text.write_str("accepted"),
        Err(e) => write!(text, "{}", Refused(e.number())),
    }
}

// Makes the call that the words are, and puts its answer; none where they are no call.
pub fn make_plan(
    plan: &mut Plan,
    words: &[&str],
    bytes: &mut [u8],
    text: &mut impl Write,
) -> Option<()> {
    let ["plan", name, limit, queue, places @ ..] = words else {
        return None;
    };
    let limit = read_number(limit)?;
    plan.read_queue(read_hex(queue, bytes)?)?;
    match (*name, places) {
        ("make", []) => {
            let (lengths, droppable) = plan.queue();
            put_proposal(text, drop_plan::propose(lengths, droppable, limit)).ok()
        }
        ("check", [places]) => {
            plan.read_places(read_hex(places, bytes)?)?;
            let (lengths, droppable) = plan.queue();
            put_verdict(
                text,
                drop_plan::judge(lengths, droppable, limit, plan.places()),
            )
            .ok()
        }
        _ => None,
    }
}
