// What the contract of each operation on a shelf says of its answer, of the shelf at exit and of the part that
// Get hands back, for any input, refused or not (specs/Promises.antt); and that each contract leaves one result
// (specs/Tight.antt).
#![tactic(auto)]
