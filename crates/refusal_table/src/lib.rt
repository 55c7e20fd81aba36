// Document 01's table of refusals as theorems: it stands in specs/Table.antt and is proved in proofs/.
#![tactic(auto)]
