// Demands 2 and 3 of the paper as theorems about the definitions: the statements in one file
// (specs/Demands.antt), to be read in ten minutes, and the proof that all of them hold, which only
// cites the crates below. Beside it what follows for a caller from the contracts alone, one operation
// after the other: the round trips (specs/FromContracts.antt).
#![tactic(auto)]
