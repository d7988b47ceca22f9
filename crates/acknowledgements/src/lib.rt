// Acknowledgements (request 2026-11): the syntax report CONTRL that answers a received interchange, as a list of segments;
// what the operation answers and what it leaves in the output; its promise, and that this leaves one result (specs/).
// What a value list is, and what the writer refuses, is left to `operations`.
#![tactic(auto)]
