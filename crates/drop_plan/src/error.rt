// What the check and the planner refuse, by document 02's numbers.
ghost use Rattle.std.specs.Prelude.{◌≡◌, Some};
ghost use Rattle.drop_plan.specs.Refusal.{number_of, text_of};

use std::error::Error;
use std::fmt;

// Why a proposal, or a queue, is refused.
#[derive(Clone, Copy, Debug, PartialEq, Eq)]
pub enum PlanError {
    PlacesDoNotRise = 20,
    PlaceOutsideQueue = 21,
    UndroppableLeftOut = 22,
    OverLimit = 23,
    QueueTooLong = 24,
}

impl PlanError {
    // Its number in the table of refusals.
    // Kept: each enum of refusals casts its own number, here and in other crates: a trait would take an impl for each all the same.
    pub fn number(self) -> u32
        ensures { result ≡ number_of self }
    {
        self as u32
    }
}

impl fmt::Display for PlanError {
    ghost output = { λ e. Some (text_of e) };

    fn fmt<W: fmt::Write>(&self, f: &mut fmt::Formatter<W>) -> fmt::Result {
        match self {
            PlanError::PlacesDoNotRise => write!(f, "places do not rise"),
            PlanError::PlaceOutsideQueue => write!(f, "a place lies outside the queue"),
            PlanError::UndroppableLeftOut => write!(f, "an undroppable packet is left out"),
            PlanError::OverLimit => write!(f, "the kept lengths are over the limit"),
            PlanError::QueueTooLong => write!(f, "the queue has more than 64 packets"),
        }
    }
}

impl Error for PlanError {}
