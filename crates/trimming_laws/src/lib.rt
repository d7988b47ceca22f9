// Trimming and value lists (paper 01, "From bytes to values" and "Operations"): trimming does what the paper's words say and
// nothing more when done again; two lists have the same trimmed contents exactly when they differ by empty ends alone; a list of
// segments and its value list determine one another, and the table of a value list passes refusal 15.
// The words of these laws are in specs/, the laws themselves in proofs/.
#![tactic(auto)]
