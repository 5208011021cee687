// Maps between algebras, and why reach agrees with distance and steepest: no code, only the definitions and claims under specs/ and their
// theorems under proofs/.

#![tactic(auto)]
