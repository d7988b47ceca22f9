// Old shelves carried over, and back (request 2026-07): what a shelf of version 1 becomes in version 2 in its own
// buffer, and one of version 2 in version 1, and what refuses it (specs/Carrying.antt); what the contract of each
// direction says (specs/Promises.antt); and that each contract leaves one result (specs/Tight.antt).
#![tactic(auto)]
