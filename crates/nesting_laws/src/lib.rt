// Lists nested to any depth: what is written is read back and what was read is written back; trimming is
// what its words say, and nothing more when done again; a nested list and its values determine one
// another; and tokens part at a position in one way. The words of these laws are in specs/, the laws in
// proofs/. What tokens and values are is left to `spelling_laws`, `trimming_laws` and `round_trip_laws`.
#![tactic(auto)]
