// A table as rows of four numbers: what one row is. specs/Chunks.antt says which rows a list of numbers is, and that these
// are the chunks that `chunks_exact(4)` gives, one by one. Plan files and checker go through their rows by it.
#![tactic(auto)]

ghost use Rattle.std.specs.Prelude.{◌≡◌, ◌+◌, ◌*◌, ◌≤◌, length};
ghost use Rattle.laws.specs.Meant.{row_meant};
ghost use Rattle.rules.specs.Plans.{first_row};
ghost use Rattle.tablerows.specs.Places.{row_at};

use rules::TableRow;

// Four numbers of a table, as a row.
#[tactic(auto, unfolding(rules::specs::Plans::first_row))]
pub fn row_in(numbers: &[u32]) -> TableRow
    requires { length numbers.now ≡ 4 }
    ensures { row_meant result ≡ first_row numbers.now }
{
    TableRow {
        board: numbers[0],
        job: numbers[1],
        from: numbers[2],
        to: numbers[3],
    }
}

// Row i of a table, counted from 0.
pub fn row_at(table: &[u32], i: usize) -> TableRow
    requires { 4 * i + 4 ≤ length table.now }
    ensures { row_meant result ≡ row_at table.now i }
{
    row_in(&table[4 * i..4 * i + 4])
}
