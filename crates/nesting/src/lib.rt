// Lists nested to any depth: cut apart, written with what ends each part, spelled, trimmed, listed as a
// list of values. It promises nothing of EDIFACT; the definitions are in specs/, what follows from them
// in `nesting_laws`.
#![tactic(auto)]
