// What follows from the soundness of a table (request 2026-08): its groups lie in one another as a tree has
// it, level by level; the tags in the tree are those of the table; and the lowest entry at fault is found
// in one pass over at most 999 entries that keeps the rooms of the open groups.
#![tactic(auto)]
