// What follows from the definitions of message structures (request 2026-08), as one record of theorems
// (specs/Theorems.antt): where no segment tag stands twice in a table, a body is refused by 22 exactly if
// no choice of repeats within the limits spells its tags; the walk never accepts what the language lacks;
// and the second Judge answers as Judge does, with 21 and 22 in their places.
#![tactic(auto)]
