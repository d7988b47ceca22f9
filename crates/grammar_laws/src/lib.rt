// The grammar of an interchange (paper 01, "Order of segments" and "Control elements"; change request
// 2026-03): what messages with their sections, groups and interchanges are, said of a list of segments
// without walking over it. It promises that refusal 9 is not met exactly where the order is that of the
// grammar, that none of 9 to 12 is met exactly where headers and trailers agree as well, and that the
// counts are the numbers of messages and groups. The definitions are in specs/, the theorems in proofs/Theorem.antt.
#![tactic(auto)]
