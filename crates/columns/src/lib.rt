// Lines for a spreadsheet (request 2026-12): a list of values as a text in columns, the list that such a text
// gives, what export and import answer and what they leave in the buffers; their promises, and that these leave
// one result (specs/). What a value list is, and what the writer refuses, is left to `operations`.
#![tactic(auto)]
