// Paper 01, "The example and its neighbours": the starred cases as one table, with a single theorem
// that the checker computes: each input is answered as the paper says (specs/).
#![tactic(auto)]
