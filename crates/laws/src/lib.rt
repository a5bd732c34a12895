// What the desk was promised, over all the crates: theorems, and no code. Read specs/ first: it has
// the statements, and proofs/ has their proofs.
#![tactic(auto)]
