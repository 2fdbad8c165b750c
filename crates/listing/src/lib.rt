// The listing of an order: read, planned and put into a lent buffer as `planlist` prints it.
// The contract is the definition `listing`; the proof only joins what the reader, the planner and the lines ensure. What
// the lists and the table held before matters to none of them.
#![tactic(auto)]

ghost use Rattle.std.specs.Prelude.{◌≡◌, ◌*◌, ◌≤◌, length};
ghost use Rattle.rules.specs.Listings.{plan_lines, listing};
ghost use Rattle.rules.specs.Planning.{plan_answer};
ghost use Rattle.rules.specs.Basics.{zeros};
ghost use Rattle.listing.specs.Listed.{room, Lists, listed_length, listed_lines};

use refusals::Fault;

// The lines of a day that was read: where they end, or why there is no plan to be put. Works and dues as they were read,
// side by side. `as`, here and below, goes to or from `usize`: the proof shows that the number fits.
fn list_day(boards: u32, work: &[u32], due: &[u32], lines: &mut [u8]) -> Result<usize, Fault>
    requires few { length work.now ≤ 1000 }
    requires pairs { length work.now ≡ length due.now }
    requires room { room ≤ length lines.old }
    ensures { Lists (plan_lines boards work.now due.now (plan_answer boards work.now due.now (zeros (8 * length work.now)))) lines.old result lines.new }
{
    let mut table = [0; 8000];
    let rows = planner::plan_rows(boards, work, due, &mut table)?;
    let jobs = work.len() as u32;
    let first = [boards, jobs, rows, rows.saturating_sub(jobs)];
    Ok(lines::put_plan(lines, first, &table, rows as usize))
}

// The lines of an order file.
fn list_order(file: &[u8], lines: &mut [u8]) -> Result<usize, Fault>
    requires { room ≤ length lines.old }
    ensures { Lists (listing file.now) lines.old result lines.new }
{
    let mut work = [0; 1000];
    let mut due = [0; 1000];
    let order = reader::read(file, &mut work, &mut due)?;
    let jobs = order.jobs as usize;
    list_day(order.boards, &work[..jobs], &due[..jobs], lines)
}

// The listing of an order file, put at the front of a buffer of at least 90,000 bytes; a shorter one is left as it is, and
// the answer is 0 (this contract's `listed_length` says so). The answer is the listing's length.
pub fn list(file: &[u8], lines: &mut [u8]) -> usize
    ensures said { result ≡ listed_length file.now lines.old }
    ensures later { lines.new ≡ listed_lines file.now lines.old }
    ensures within { result ≤ length lines.old }
{
    if lines.len() < 90000 {
        return 0;
    }
    match list_order(file, lines) {
        Ok(end) => end,
        Err(fault) => lines::put_refusal(lines, u32::from(fault.refusal), fault.place),
    }
}
