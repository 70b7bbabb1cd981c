// The three demands as theorems, with no code in them: over the lent tables, the state by value and the calls for hosts. See specs/ and proofs/Demands.antt.

#![tactic(auto)]
