// The stages of a chunk.
ghost use Rattle.std.specs.Prelude.{◌≡◌, [], ◌∷◌};
ghost use Rattle.held.specs.Stages.{code_of, lacks_of, number_of, stage_in, stage_of};

// The field that the next byte belongs to. One of several bytes has what was gathered of it, and how many bytes it lacks.
#[derive(Clone, Copy, Debug, PartialEq, Eq)]
pub enum Stage {
    Csid,
    CsidSecond { first: u32 },
    CsidThird { first: u32, second: u8 },
    InitialTimestamp { gathered: u32, lacks: u32 },
    MessageLength { gathered: u32, lacks: u32 },
    MessageTypeId,
    MessageStreamId { gathered: u32, lacks: u32 },
    ExtendedTimestamp { gathered: u32, lacks: u32 },
    MessagePayload,
}

// The stage that its number means, with what was gathered and what is lacked: one over 8 means a payload.
#[tactic(auto, unfolding(crate::specs::Stages::stage_in))]
pub fn stage_in(stage: u32, gathered: u32, lacks: u32) -> Stage
    ensures { result ≡ stage_in stage gathered lacks }
{
    match stage {
        0 => Stage::Csid,
        1 => Stage::CsidSecond { first: gathered },
        2 => Stage::CsidThird {
            first: gathered,
            second: (lacks % 256) as u8,
        },
        3 => Stage::InitialTimestamp { gathered, lacks },
        4 => Stage::MessageLength { gathered, lacks },
        5 => Stage::MessageTypeId,
        6 => Stage::MessageStreamId { gathered, lacks },
        7 => Stage::ExtendedTimestamp { gathered, lacks },
        _ => Stage::MessagePayload,
    }
}

// .. and back.
pub fn stage_numbers(stage: Stage) -> [u32; 3]
    ensures { result ≡ code_of (stage_of stage) ∷ number_of (stage_of stage) ∷ lacks_of (stage_of stage) ∷ [] }
{
    match stage {
        Stage::Csid => [0, 0, 0],
        Stage::CsidSecond { first } => [1, first, 0],
        Stage::CsidThird { first, second } => [2, first, second as u32],
        Stage::InitialTimestamp { gathered, lacks } => [3, gathered, lacks],
        Stage::MessageLength { gathered, lacks } => [4, gathered, lacks],
        Stage::MessageTypeId => [5, 0, 0],
        Stage::MessageStreamId { gathered, lacks } => [6, gathered, lacks],
        Stage::ExtendedTimestamp { gathered, lacks } => [7, gathered, lacks],
        Stage::MessagePayload => [8, 0, 0],
    }
}
