// The walk over the segments as laws (paper 01, "Order of segments"; change request 2026-03): from the
// walk alone, whether a segment fits, by its kind and the section that it begins, the walk after it, and
// whether an interchange is complete. It promises that each is the answer of `segments` and
// `control_elements` for all that passed, where each segment was allowed and kept the rule of sections,
// and that no counter is higher than the number of segments. The definitions are in specs/; the
// functions are in `walk`.
#![tactic(auto)]
