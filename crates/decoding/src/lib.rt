// The decoder's definition: what a chunk, a call and a size told do to a decoder. It stands in specs/, and its laws are proved in proofs/.
#![tactic(auto)]
