// Placing one job: the choice of its boards from their free-from minutes, and its rows at the front of the lent table.
// The answers are those of the definitions in crates/rules/specs/Planning.antt, on any free-from minutes, works and dues.
// The idea: a scan keeps that the best spot so far leads to the same spot in the end. Steps 2 and 3 ask of the greatest room
// and of the least room what 01 asks of every room; in step 4 both boards exist and differ, so that each row is written
// from a free-from minute that the other has not changed.
#![tactic(auto)]

ghost use Rattle.std.specs.Prelude.{◌≡◌, Bool, ℕ, Some, [], ◌∷◌, ◌-◌, ◌≤◌};
ghost use Rattle.laws.specs.Meant.{job_meant};
ghost use Rattle.rules.specs.Planning.{rooms, scan, none, greatest_up_to, least_above, fill, place_last, place_other};
ghost use Rattle.placing.specs.Rows.{row_from, split_over, with_rows, Ready, RowReady, Wrote};
ghost use Rattle.placing.specs.Scans.{greater_up_to, less_above};

use rules::{Job, Spot};

// "a board's room is d minus its free-from minute, never below 0"
pub fn room(due: u32, free: u32) -> u32
    ensures { result ≡ due - free }
{
    due.saturating_sub(free)
}

// Which room is chosen over the best before it. A best room of 0 is that of no board, in a `Spot` too: the definitions have
// no other word for "none", and what place_last answers for a job of no work rests on it.
trait Choice {
    ghost beats: { Self → ℕ → ℕ → Bool };

    fn beats(&self, here: u32, best: u32) -> bool
        ensures { result ≡ beats self.now here best };
}

// The greatest room that is not above the limit, and not 0.
#[derive(Clone, Copy)]
struct GreatestUpTo {
    limit: u32,
}

impl Choice for GreatestUpTo {
    ghost beats = { λ choice here best. greater_up_to choice.limit here best };

    fn beats(&self, here: u32, best: u32) -> bool {
        best < here && here <= self.limit
    }
}

// The least room above the limit.
#[derive(Clone, Copy)]
struct LeastAbove {
    limit: u32,
}

impl Choice for LeastAbove {
    ghost beats = { λ choice here best. less_above choice.limit here best };

    fn beats(&self, here: u32, best: u32) -> bool {
        self.limit < here && (best == 0 || here < best)
    }
}

// "Equal boards: the lowest number wins", since a room takes the place of the best before it only where it beats it.
fn choose<C: Choice>(choice: &C, due: u32, free: &[u32]) -> Spot
    ensures { result ≡ scan (C.beats choice.now) 0 none (rooms due free.now) }
{
    let mut best = Spot { board: 0, room: 0 };
    for (board, from) in free.iter().enumerate() {
        let here = room(due, *from);
        if choice.beats(here, best.room) {
            best = Spot { board, room: here };
        }
    }
    best
}

#[tactic(auto, unfolding(rules::specs::Planning::greatest_up_to))]
pub fn greatest_up_to(limit: u32, due: u32, free: &[u32]) -> Spot
    ensures { result ≡ greatest_up_to limit (rooms due free.now) }
{
    choose(&GreatestUpTo { limit }, due, free)
}

#[tactic(auto, unfolding(rules::specs::Planning::least_above))]
pub fn least_above(limit: u32, due: u32, free: &[u32]) -> Spot
    ensures { result ≡ least_above limit (rooms due free.now) }
{
    choose(&LeastAbove { limit }, due, free)
}

// The board with the most room: no room is above the due minute.
fn most_room(due: u32, free: &[u32]) -> Spot
    ensures { result ≡ greatest_up_to due (rooms due free.now) }
{
    greatest_up_to(due, due, free)
}

// `minutes` of a job on a board from its free-from minute on: the row, and the board's new free-from minute. Both lists are
// lent one by one, and no struct holds them: its methods would each have to say that its fields are still these two lists.
// `as` goes to fewer bits: the proof shows that the number fits.
fn add_row(number: u32, board: usize, minutes: u32, free: &mut [u32], table: &mut [u32])
    requires { RowReady free.old table.old board minutes }
    ensures free_after { free.new ≡ fill free.old board minutes }
    ensures table_after { table.new ≡ with_rows (row_from free.old number board minutes ∷ []) table.old }
{
    let from = free[board];
    let to = from + minutes;
    table[..4].copy_from_slice(&[board as u32 + 1, number, from, to]);
    free[board] = to;
}

// 1. "The last job in due order goes to the board with the most room, in one row; 9 if t exceeds it."
// The answer, here and below, is the number of rows written at the table's front; none where the job cannot be placed.
pub fn place_last(job: Job, free: &mut [u32], table: &mut [u32]) -> Option<usize>
    requires { Ready free.old table.old }
    ensures { Wrote (place_last free.old (job_meant job)) free.old table.old result free.new table.new }
{
    let most = most_room(job.due, free);
    if most.room < job.work {
        return None;
    }
    add_row(job.number, most.board, job.work, free, table);
    Some(1)
}

// 4. "The job fills A up to d. What is left goes on B from its free-from minute. If nothing is left there is no second row"
fn place_two(job: Job, free: &mut [u32], table: &mut [u32]) -> usize
    requires ready { Ready free.old table.old }
    requires fits { job.work ≤ (greatest_up_to job.due (rooms job.due free.old)).room }
    ensures { Wrote (split_over free.old (job_meant job)) free.old table.old (Some result) free.new table.new }
{
    let a = greatest_up_to(job.work, job.due, free);
    if a.room == job.work {
        add_row(job.number, a.board, job.work, free, table);
        return 1;
    }
    let b = least_above(job.work, job.due, free);
    let left = job.work - a.room;
    add_row(job.number, a.board, a.room, free, table);
    add_row(job.number, b.board, left, free, &mut table[4..]);
    2
}

// The jobs before the last: 2. "If t exceeds every room: 9." 3. "If t is at most every room that isn't 0: the board with
// the least such room." 4. otherwise.
pub fn place_other(job: Job, free: &mut [u32], table: &mut [u32]) -> Option<usize>
    requires { Ready free.old table.old }
    ensures { Wrote (place_other free.old (job_meant job)) free.old table.old result free.new table.new }
{
    if most_room(job.due, free).room < job.work {
        return None;
    }
    let least = least_above(0, job.due, free);
    if job.work <= least.room {
        add_row(job.number, least.board, job.work, free, table);
        return Some(1);
    }
    Some(place_two(job, free, table))
}
