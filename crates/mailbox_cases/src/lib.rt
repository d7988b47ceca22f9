// Request 2026-02 on files that are written out: how each is cut into pieces, under which number Judge counts each
// piece, and what the report says. One table, with a single theorem that the checker computes (specs/).
#![tactic(auto)]
