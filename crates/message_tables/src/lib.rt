// Branching tables (request 2026-08, "Message structures"): the entries that bytes spell, when a table of
// them is sound and which entry is at fault, and the table as a tree. The definitions are in specs/. What
// a body must hold to match a table is left to `message_structures`.
#![tactic(auto)]
