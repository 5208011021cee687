// The printed sheet: no code, only the definitions under specs/ and the theorems of every sheet under proofs/.
// Its lines are printed by `sheet_lines`, and the sheet of a text by `sheet`.

#![tactic(auto)]
