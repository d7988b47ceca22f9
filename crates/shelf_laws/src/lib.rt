// What follows from the definitions of the shelf (requests 2026-04 and 2026-06), as one record of theorems
// (specs/Shelf.antt): a sound shelf stays sound, what was put is got back, the same interchange is kept once,
// freed room is used again, a refused call changes nothing, over any list of operations the bytes held are the
// lengths newly put less the lengths removed, and the two sums are what they are to be. The layout is a parameter.
#![tactic(auto)]
