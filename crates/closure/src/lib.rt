// The theory of the elimination: no code, only the definitions under specs/ and their theorems under proofs/.
// The calls that compute it are the crate `paths`.

#![tactic(auto)]
