// Request 2026-12 on texts that are written out: what export gives, what import writes, and the answer to what a
// spreadsheet may do to a text. Tables, with a theorem that the checker computes (specs/).
#![tactic(auto)]
