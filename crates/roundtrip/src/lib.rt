// The plan file's round trip: a written file gives back its rows and its note, and what an accepted file's rows decode to,
// written again behind its note, is the same file. Theorems on the two contracts; no code.
// The idea: a number and its bytes undo each other, and everything else is cutting and joining lists.
#![tactic(auto)]
