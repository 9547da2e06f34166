// What the wear operation is good for (specs/ has the statements, proofs/ the proofs). There is no code to run here.
#![tactic(auto)]
