// What the contract of the second Judge says (request 2026-08), and that it leaves one result.
#![tactic(auto)]
