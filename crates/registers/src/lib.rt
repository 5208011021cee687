// The card's register window: no code, only the definitions under specs/ and their theorems under proofs/. The calls are the crate
// `window`.

#![tactic(auto)]
