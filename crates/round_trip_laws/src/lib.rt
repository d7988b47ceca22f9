// Round trips (paper 01, "Operations"): what Write gives is accepted and read back as the trimmed list; what Read gives is written
// back, under any usable service characters that can spell it, as an interchange with the same contents; and Locate names the part
// of the input in which the value that stands at that position in the contents is spelled.
// The words of these theorems are in specs/, the theorems themselves in proofs/Theorems.antt.
#![tactic(auto)]
