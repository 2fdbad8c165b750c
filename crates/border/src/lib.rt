// The C border: every function that C may call, with its contract carried over; crates/border_c exports them, word for word.
// A `&[T]` is a pointer and a count of elements; results are plain structs of 32-bit numbers. No function here has a
// `requires`: each answers all inputs.
#![tactic(auto)]

ghost use Rattle.std.specs.Prelude.{◌≡◌};
ghost use Rattle.rules.specs.Orders.{read_answer};
ghost use Rattle.rules.specs.Plans.{Plan, jobs, rows_of};
ghost use Rattle.rules.specs.Planning.{plan_answer};
ghost use Rattle.theory.specs.Demands.{NoneRight, FewRows, BusyRight};
ghost use Rattle.rules.specs.Checking.{check_answer};
ghost use Rattle.rules.specs.PlanFiles.{part_answer, part_of, write_answer};
ghost use Rattle.checker.specs.Answer.{SaysPlans};
ghost use Rattle.planfile.specs.Rows.{table_row, row_at};

use rules::{Checked, OrderRead, Planned, RowPart, TableRow, Written};

// Reads an order file into two lent lists.
pub fn tuffbasket_read_order(file: &[u8], work: &mut [u32], due: &mut [u32]) -> OrderRead
    ensures said { result ≡ (read_answer file.now work.old due.old).said }
    ensures works { work.new ≡ (read_answer file.now work.old due.old).work }
    ensures dues { due.new ≡ (read_answer file.now work.old due.old).due }
{
    reader::read_order(file, work, due)
}

// Plans a day on equal boards into a lent table: demands 2 and 3 are the clauses plan, none, few and busy.
pub fn tuffbasket_plan(boards: u32, work: &[u32], due: &[u32], table: &mut [u32]) -> Planned
    ensures said { result ≡ (plan_answer boards work.now due.now table.old).said }
    ensures later { table.new ≡ (plan_answer boards work.now due.now table.old).table }
    ensures plan { result.refusal ≡ 0 → Plan boards (jobs work.now due.now) (rows_of result.rows table.new) }
    ensures none { NoneRight boards work.now due.now table.old result }
    ensures few { result.refusal ≡ 0 → FewRows boards work.now due.now (rows_of result.rows table.new) }
    ensures busy { result.refusal ≡ 0 → BusyRight work.now (rows_of result.rows table.new) }
    ensures checked { result.refusal ≡ 0 → (check_answer boards work.now due.now table.new result.rows).yes ≡ 1 }
{
    planner::plan(boards, work, due, table)
}

// Says yes to exactly the plans.
pub fn tuffbasket_check(
    boards: u32,
    work: &[u32],
    due: &[u32],
    table: &[u32],
    rows: usize,
) -> Checked
    ensures answer { result ≡ check_answer boards work.now due.now table.now rows }
    ensures plans { SaysPlans boards work.now due.now table.now rows result }
{
    checker::check(boards, work, due, table, rows)
}

// Where the rows of a plan file stand, as an offset and a length in bytes.
pub fn tuffbasket_find_rows(file: &[u8]) -> RowPart
    ensures { result ≡ part_answer file.now }
{
    planfile::find_rows(file)
}

// Row i of a plan file, counted from 0.
pub fn tuffbasket_file_row(file: &[u8], i: usize) -> TableRow
    ensures { result ≡ table_row (row_at (part_of file.now) i) }
{
    planfile::file_row(file, i)
}

// Writes a plan file behind a note of so many bytes.
pub fn tuffbasket_write_plan(table: &[u32], count: usize, buffer: &mut [u8], note: usize) -> Written
    ensures said { result ≡ (write_answer table.now count buffer.old note).said }
    ensures later { buffer.new ≡ (write_answer table.now count buffer.old note).buffer }
{
    planfile::write_plan(table, count, buffer, note)
}
