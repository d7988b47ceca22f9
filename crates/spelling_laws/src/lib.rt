// Reading and spelling undo one another (paper 01, "From bytes to values"): a body passes refusals 4 and 5
// exactly when some list of segments is spelled by it, and there is then only one such list.
// The words of these laws are in specs/, the laws themselves in proofs/Laws.antt.
#![tactic(auto)]
