// The normal form (paper 01, "Normal form"): the normal form of an accepted input is accepted, has the input's contents and mark,
// is its own normal form and at most 2n + 9 bytes long; two accepted inputs have the same one exactly where their contents and
// marks are equal; and a file of normal forms end to end is cut apart in only one way.
// The words of these theorems are in specs/, the theorems themselves in proofs/Theorems.antt.
#![tactic(auto)]
