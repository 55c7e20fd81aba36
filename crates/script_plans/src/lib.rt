// The calls of lines that ask the planner or its check. A test tool: it is proved safe and ending, and promises nothing further.
#![tactic(auto)]

mod plan_calls;
mod queues;

pub use crate::plan_calls::make_plan;
pub use crate::queues::Plan;
