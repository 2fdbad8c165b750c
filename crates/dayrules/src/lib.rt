// What the planner and the checker test first of a day: 12 for the boards, 13 for the lists, 14 for each job's numbers.
// Each answer is that of the definition in crates/rules. The one loop keeps that the answer from job before + 1 on
// is the answer from job 1 on, since all jobs before are good.
#![tactic(auto)]

ghost use Rattle.std.specs.Prelude.{◌≡◌};
ghost use Rattle.laws.specs.Found.{found};
ghost use Rattle.rules.specs.Planning.{bad_boards, bad_lists, job_good, first_out};

// The limits of 01; crates/rules/specs/Basics.antt has them as most_boards, most_jobs and most_minutes. Other crates name
// or write out those that they test: an edit of a limit (limit_is_out; elsewhere job_1001, level_33, rows_2001, count_2001)
// turns one crate's.
const MOST_BOARDS: u32 = 64;

const MOST_JOBS: usize = 1000;

const MOST_MINUTES: u32 = 1000000;

// 12: "boards not 1 to 64"
#[tactic(auto, unfolding(rules::specs::Planning::bad_boards, rules::specs::Basics::within))]
pub fn bad_boards(boards: u32) -> bool
    ensures { result ≡ bad_boards boards }
{
    !(1..=MOST_BOARDS).contains(&boards)
}

// 13: "work and due lists of unequal length, or not 1 to 1,000 long"
#[tactic(auto, unfolding(rules::specs::Planning::bad_lists, rules::specs::Basics::within))]
pub fn bad_lists(work: &[u32], due: &[u32]) -> bool
    ensures { result ≡ bad_lists work.now due.now }
{
    work.len() != due.len() || !(1..=MOST_JOBS).contains(&work.len())
}

#[tactic(auto, unfolding(rules::specs::Planning::job_good, rules::specs::Basics::within))]
fn job_good(work: u32, due: u32) -> bool
    ensures { result ≡ job_good work due }
{
    let allowed = 1..=MOST_MINUTES;
    allowed.contains(&work) && allowed.contains(&due)
}

// 14: the first job whose work or due is "not 1 to 1,000,000", counted from 1.
pub fn first_out(work: &[u32], due: &[u32]) -> Option<usize>
    ensures { result ≡ found (first_out work.now due.now) }
{
    // Counted by hand: with `enumerate` or `position` this loop, that every call goes through, takes a third more time.
    let mut before = 0;
    for (w, d) in work.iter().zip(due) {
        if !job_good(*w, *d) {
            return Some(before + 1);
        }
        before += 1;
    }
    None
}
