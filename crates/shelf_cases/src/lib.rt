// Requests 2026-04 and 2026-06 on shelves that are written out, of version 1 and 2: which are sound, which damages make one unsound, and
// what Start, Put, Get and Remove answer and leave. One table, with a single theorem that the checker computes (specs/).
#![tactic(auto)]
