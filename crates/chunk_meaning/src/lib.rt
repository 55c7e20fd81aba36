// What a chunk means: what is stored of its stream, what is refused, and what the time is. It stands in specs/.
#![tactic(auto)]
