// The two levels (paper 01, "Levels"; ISO 9735:1990, clause 5): in which of them each of the 256 byte
// values belongs, and which level and version UNB names. The definitions are in specs/.
#![tactic(auto)]
