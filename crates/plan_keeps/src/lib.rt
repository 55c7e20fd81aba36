// What an accepted plan keeps of a session, as a theorem over demand 3: it stands in specs/Session.antt and is proved in proofs/.
#![tactic(auto)]
