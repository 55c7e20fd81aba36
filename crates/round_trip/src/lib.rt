// Demand 3 as one theorem: it stands in specs/Demand3.antt and is proved in proofs/.
#![tactic(auto)]
