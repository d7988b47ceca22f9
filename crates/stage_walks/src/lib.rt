// The stages of paper 01 as walks from left to right that stop at the first fault: what code is
// proved against (specs/). It promises that each walk answers what its stage answers (proofs/).
#![tactic(auto)]
