// The operations of paper 01 as definitions: for each, its answer and the final bytes or numbers of
// each lent buffer, for every input, refused or not (specs/). Public contracts are equations to these.
#![tactic(auto)]
