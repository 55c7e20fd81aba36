// Document 01's marked samples, proved of the definitions: see specs/ and proofs/. There is no code here.
#![tactic(auto)]
