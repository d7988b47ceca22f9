// Old shelves carried over, and back (request 2026-07), as one record of theorems (specs/OldShelves.antt): what is
// carried is sound in its other version, every slot keeps its text, and there and back gives the same bytes. It
// speaks of the definitions of `carrying`, whatever code meets them.
#![tactic(auto)]
