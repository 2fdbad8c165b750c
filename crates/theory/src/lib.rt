// The mathematics of the three demands, over the definitions of crates/rules; no code. specs/Demands.antt says what is
// proved. The rows are a plan because each row begins where its board was free from, and ends where the board is free from
// next (Laid). A refusal is right because only the number of boards free in each minute matters to the jobs to come, and the
// steps take minutes with as many free boards as any left out (Fits, Free); and every plan is such a choice of minutes
// (Covers). The rows are few because a job in two rows fills a board for its due minute and leaves another unfilled (Few).
#![tactic(auto)]
