// Which inputs are accepted, and what is answered (paper 01): the rules of an accepted interchange as one record,
// and the rule of refusals as another, neither of them a computation. It promises that an input is accepted exactly
// where it is allowed, that it is refused with a number at a place exactly where the paper says so, that one of the
// two holds and never both, that the counts answered are those of the contents, and that "same" is an equivalence of
// accepted interchanges of which Keep hands back the shorter. Of line breaks (request 2026-01) it promises that inputs
// which differ in nothing else are the same, and that contents and normal form hold none. The records are in specs/;
// the theorems are the `pub` ones of proofs/Acceptance, Stages, Judged, Same, Breaks, Respaced, Breakless and Fakes.
// How each rule is read off an input is left to the crates below.
#![tactic(auto)]
