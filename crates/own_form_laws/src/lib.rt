// When a text is its own normal form (request 2026-04: "the occupied texts are normal forms"): the normal form of
// an input that begins with a normal form's advice is at most as long as the input, and as long only where it is
// the input. So a text is a normal form exactly where it begins so, is accepted, and has the length of its normal
// form.
#![tactic(auto)]
