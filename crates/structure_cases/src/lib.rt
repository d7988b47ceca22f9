// Request 2026-08 on tables, bodies and interchanges that are written out: which tables are sound and which
// entry is at fault, where the walk stops, and what the second Judge answers. One theorem that the checker
// computes (specs/).
#![tactic(auto)]
