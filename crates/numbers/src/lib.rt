// Big-endian numbers (request 2026-04: "numbers are big-endian"): the number that bytes spell, the first
// worth most, and the bytes of a number, for any width. The definitions are in specs/. Which numbers stand
// where in a shelf is left to `shelves`.
#![tactic(auto)]
