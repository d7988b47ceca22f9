// Request 2026-11 on interchanges that are written out: each is acknowledged, or refused, as its row says. One table, with a
// single theorem that the checker computes (specs/).
#![tactic(auto)]
