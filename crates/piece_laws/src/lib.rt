// What follows for whoever goes through a mailbox file piece by piece (request 2026-02): how its first piece ends, what is left
// after it, and that Judge says the same of what stopped the cutting; with a table of files, which one theorem computes.
// specs/ has the statements, of which `PieceEnds` is the list; proofs/ proves it.
#![tactic(auto)]
