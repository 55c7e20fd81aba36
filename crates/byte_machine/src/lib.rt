// The machine that takes the bytes of a header one after the other: it stands in specs/, and its laws are proved in proofs/.
#![tactic(auto)]
