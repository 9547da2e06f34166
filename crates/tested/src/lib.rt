// What the contract of `crocktendril_step` is tested against: the five wrong cores, and E1 to E12 on areas (specs/ has the statements, proofs/ the proofs).
// There is no code to run here.
#![tactic(auto)]
