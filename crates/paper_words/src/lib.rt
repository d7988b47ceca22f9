// Paper 01 in the paper's words: under its headings its notions, with its letters and numbers, and that
// the definitions say the same (specs/PaperWords.antt), to be read in some ten minutes with the paper beside
// it. What Judge and Write refuse, and at which place, is said as a whole. Further cases are computed
// (specs/Further.antt). What is demanded of accepted interchanges is left to `theorems`.
#![tactic(auto)]
