// What Judge finds (paper 01, "Normal form", "Refusals by number"): for each of the refusals 1 to 13
// all the places at which it is met, the stages, and the contents, counts and normal form of an input.
// The definitions are in specs/. How each operation answers is left to `operations`.
#![tactic(auto)]
