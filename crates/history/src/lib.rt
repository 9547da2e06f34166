// A step keeps the area well formed, and demand 3 (specs/ has the statements, proofs/ the proofs). There is no code to run here.
#![tactic(auto)]
