// The clock: 32-bit milliseconds that wrap (time.rs of rml_rtmp).
#![tactic(auto)]

ghost use Rattle.std.specs.Prelude.{◌≡◌};
ghost use Rattle.time.specs.Clock.{sum, difference};
ghost use Rattle.time.specs.Distance.{distance};

mod distance;

use crate::distance::distance_of;

// A count of milliseconds from an unknown epoch.
#[derive(Clone, Copy, Debug, PartialEq, Eq, Default)]
pub struct RtmpTimestamp {
    pub value: u32,
}

// What `compare` answers: how far the other timestamp is from this one, positive where the other is later; and this one handed
// back.
#[derive(Clone, Copy, Debug, PartialEq, Eq)]
pub struct Compared {
    pub distance: i64,
    pub timestamp: RtmpTimestamp,
}

impl RtmpTimestamp {
    pub fn new(value: u32) -> Self
        ensures { result.value ≡ value }
    {
        RtmpTimestamp { value }
    }

    // Kept: methods by value that hand back a timestamp, and no operator traits beside them: a project rule.
    pub fn set(self, value: u32) -> Self
        ensures { result.value ≡ value }
    {
        RtmpTimestamp { value }
    }

    pub fn add(self, other: RtmpTimestamp) -> Self
        ensures { result.value ≡ sum self.value other.value }
    {
        RtmpTimestamp {
            value: self.value.wrapping_add(other.value),
        }
    }

    pub fn subtract(self, other: RtmpTimestamp) -> Self
        ensures { result.value ≡ difference self.value other.value }
    {
        RtmpTimestamp {
            value: self.value.wrapping_sub(other.value),
        }
    }

    // How far other is from self.
    pub fn compare(self, other: RtmpTimestamp) -> Compared
        ensures { (result.distance ≡ distance self.value other.value) × (result.timestamp ≡ self) }
    {
        Compared {
            distance: distance_of(self.value, other.value),
            timestamp: self,
        }
    }
}
