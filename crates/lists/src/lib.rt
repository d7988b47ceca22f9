// Lists as every other crate speaks of them: texts as bytes, a list cut into pieces, a list without
// its idle end, pieces joined. It promises nothing of EDIFACT; the definitions are in specs/.
#![tactic(auto)]
