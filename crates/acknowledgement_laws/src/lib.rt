// What follows of acknowledgements (request 2026-11): our reader accepts the text, and reads back the values of the list put
// together, trimmed; 23, 15 and what Write refuses answer where the request says, and nowhere else. The statements are
// in specs/, their proofs in proofs/.
#![tactic(auto)]
