// What the eight public operations promise (paper 01, "How tight the contracts are"): a named
// proposition for each, which its contract cites (specs/Promises.antt), and that two results allowed
// by it are equal (specs/Tight.antt). The functions themselves show that each promise can be met.
#![tactic(auto)]
