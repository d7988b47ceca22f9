// Message structures (request 2026-08): the walk through a table that each body is checked by, the
// language that a table spells, which does not speak of the walk, refusal 22, and the second Judge,
// which is lent a table. The definitions are in specs/. When a table is sound is left to
// `message_tables`.
#![tactic(auto)]
