// What follows from the definitions of mailbox files (request 2026-02), for every file: how it is cut, that no other
// list of pieces is cut so, that interchanges written end to end are found again, and what the figures add up to.
// specs/ has the statements, of which `MailboxFiles` is the list; proofs/ proves it.
#![tactic(auto)]
