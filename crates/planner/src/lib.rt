// The planner: a table of rows for boards, works and dues, or a refusal. Its answer is that of the definition, plan_answer,
// for all inputs: the numbers and the whole later table.
// The idea: the loop over the jobs keeps that placing the jobs left, behind the rows so far, gives what placing all of them
// gives, and that the table begins with the rows so far. What stands behind the rows is cleared once, at the end.
#![tactic(auto)]

ghost use Rattle.std.specs.Prelude.{◌≡◌, [], map, ◌≤◌, length};
ghost use Rattle.rules.specs.Basics.{zeros, most_jobs};
ghost use Rattle.rules.specs.declared.Refusal.TheVariants.{NoPlan};
ghost use Rattle.rules.specs.Plans.{jobs};
ghost use Rattle.rules.specs.Planning.{due_order, place_all, placing, after_placing, plan_answer};
ghost use Rattle.ordering.specs.Records.{job_in};
ghost use Rattle.planner.specs.Said.{planned_of, Answered};
ghost use Rattle.planner.specs.Jobs.{Enough, Told};
ghost use Rattle.planner.specs.Days.{Day, Tested};

use placing::{place_last, place_other};
use refusals::Fault;
use rules::{Job, Planned, Refusal};

// Limits of 01; crates/rules/specs/Basics.antt has them as most_jobs and most_boards.
const MOST_JOBS: usize = 1000;

const MOST_BOARDS: usize = 64;

// 9 names "the job being placed".
fn no_plan(job: Job) -> Fault
    ensures { result ≡ record { refusal = NoPlan; place = job.number } }
{
    Fault {
        refusal: Refusal::NoPlan,
        place: job.number,
    }
}

// All jobs, from given free-from minutes: the number of rows, and the rows at the table's front. Behind them the table may
// hold anything. `as`, here and below, goes to or from `usize`: the proof shows that the number fits.
fn place_jobs(records: &[u64], free: &mut [u32], table: &mut [u32]) -> Result<u32, Fault>
    requires { Enough records.now free.old table.old }
    ensures { Told (place_all [] free.old (map job_in records.now)) table.old result table.new }
{
    let Some((last, others)) = records.split_last() else {
        return Ok(0);
    };
    let mut rows: usize = 0;
    // Not `ok_or(no_plan(job))?`: a `Result` made and taken apart costs 10 ns a job, a sixth of the time on 2 boards.
    for record in others {
        let job = ordering::job_in(*record);
        let Some(added) = place_other(job, free, &mut table[4 * rows..]) else {
            return Err(no_plan(job));
        };
        rows += added;
    }
    let job = ordering::job_in(*last);
    let Some(added) = place_last(job, free, &mut table[4 * rows..]) else {
        return Err(no_plan(job));
    };
    rows += added;
    Ok(rows as u32)
}

// The whole answer for jobs in due order, from given free-from minutes: the rows, then zeros; all zero for 9.
fn plan_records(records: &[u64], free: &mut [u32], table: &mut [u32]) -> Result<u32, Fault>
    requires { Enough records.now free.old table.old }
    ensures { Answered (after_placing (place_all [] free.old (map job_in records.now)) table.old) result table.new }
{
    let said = place_jobs(records, free, table);
    lists::clear_from(table, 4 * said.unwrap_or(0) as usize);
    said
}

// "Each board has a free-from minute, at first 0". All scratch of the planner is here, of fixed size: 16,256 bytes.
fn plan_day(boards: u32, work: &[u32], due: &[u32], table: &mut [u32]) -> Result<u32, Fault>
    requires { Day boards work.now due.now table.old }
    ensures { Answered (after_placing (placing boards work.now due.now) table.old) result table.new }
{
    let n = work.len();
    let m = boards as usize;
    let mut records = [0u64; MOST_JOBS];
    let mut scratch = [0u64; MOST_JOBS];
    let mut free = [0u32; MOST_BOARDS];
    ordering::due_order(work, due, &mut records[..n], &mut scratch[..n]);
    plan_records(&records[..n], &mut free[..m], table)
}

// "Order: 12; 13; 10 (table under 8 numbers per job); 14". The checker's order is another: each answer has its own.
fn test_day(boards: u32, work: &[u32], due: &[u32], table: &[u32]) -> Result<(), Fault>
    ensures { Tested boards work.now due.now table.now result }
{
    if dayrules::bad_boards(boards) {
        return Err(Refusal::BadBoards.into());
    }
    if dayrules::bad_lists(work, due) {
        return Err(Refusal::BadLists.into());
    }
    if table.len() < 8 * work.len() {
        return Err(Refusal::ShortBuffer.into());
    }
    match dayrules::first_out(work, due) {
        None => Ok(()),
        Some(number) => Err(Fault {
            refusal: Refusal::OutOfRange,
            place: number as u32,
        }),
    }
}

// The number of rows, or why there are none: 9 comes last. Works and dues are two lists, as C lends them.
pub fn plan_rows(boards: u32, work: &[u32], due: &[u32], table: &mut [u32]) -> Result<u32, Fault>
    ensures said { planned_of result ≡ (plan_answer boards work.now due.now table.old).said }
    ensures later { table.new ≡ (plan_answer boards work.now due.now table.old).table }
{
    test_day(boards, work, due, table)?;
    plan_day(boards, work, due, table)
}

// The same in the three numbers that C is given.
pub fn plan(boards: u32, work: &[u32], due: &[u32], table: &mut [u32]) -> Planned
    ensures said { result ≡ (plan_answer boards work.now due.now table.old).said }
    ensures later { table.new ≡ (plan_answer boards work.now due.now table.old).table }
{
    match plan_rows(boards, work, due, table) {
        Ok(rows) => Planned {
            refusal: 0,
            place: 0,
            rows,
        },
        Err(fault) => Planned::from(fault),
    }
}
