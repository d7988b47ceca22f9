// Two networks, either order (request 2026-13), as one record of theorems (specs/EitherOrder.antt): accepted
// interchanges that have room on a sound shelf, put in whatever order, leave the same kept texts, bytes held
// and duplicates figure, for two and for any list. It speaks of the contract of Put, and so holds of any code
// that meets it.
#![tactic(auto)]
