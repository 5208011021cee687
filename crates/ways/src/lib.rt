// Ways found back from a closed table: no code, only the definitions under specs/ and their theorems under proofs/. The search
// is the crate `levels`, the call `traceback`.

#![tactic(auto)]
