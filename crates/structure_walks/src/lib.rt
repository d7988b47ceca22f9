// Stage 22 (request 2026-08) as a walk over the segments from left to right that stops in the first message
// that does not match its table. The walk through a message goes over all that follows its UNH: no sound
// table has a tag UNH or UNT, so that it takes neither.
#![tactic(auto)]
