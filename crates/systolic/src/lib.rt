// The theory of the systolic array: no code, only the definitions under specs/ and their theorems under proofs/.
// The calls that compute it are the crate `array`.

#![tactic(auto)]
