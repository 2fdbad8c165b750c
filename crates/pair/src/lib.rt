// The item reader and the group reader that call each other: 01, "a group holds items, and an item may be a group". The
// levels left fall from call to call, so the depth is bounded whatever the file. They meet the contract of the reader that
// ships, from the same definition, and are never linked into what ships: no compiled function there calls itself.
// The idea of the proof: each function takes a cursor that holds a reading, and leaves it at a later place, with what is
// wanted there, or says how the reading is refused.
#![tactic(auto)]

ghost use Rattle.std.specs.Prelude.{◌≡◌, ◌+◌};
ghost use Rattle.rules.specs.declared.Wanted.TheVariants.{ItemOrClose, ItemWord};
ghost use Rattle.rules.specs.Basics.{most_levels};
ghost use Rattle.rules.specs.Orders.{read_answer};
ghost use Rattle.grammar.specs.Turns.{LentAll};
ghost use Rattle.reader.specs.Ways.{Ready, Closes};
ghost use Rattle.pair.specs.Moves.{To, Stays, togo};

use grammar::{Cursor, Order};
use reader::{Way, read_by, said, step};
use refusals::Fault;
use rules::{OrderRead, Wanted};

// Three tokens of which none is left to choice: the order's bracket, word and boards; a job's work, due and bracket.
fn three(cursor: &mut Cursor) -> Result<(), Fault>
    requires { Ready cursor.old × (togo cursor.old.state.wanted ≡ 3) }
    ensures lent { LentAll cursor.old cursor.new }
    ensures to { To (Stays cursor.old) cursor.old result cursor.new }
{
    for _ in 0..3u32 {
        step(cursor)?;
    }
    Ok(())
}

// An item behind its opening bracket: a job, or a group with its due and its items.
#[cycle(items)]
fn item(cursor: &mut Cursor, levels: usize) -> Result<(), Fault>
    requires { Ready cursor.old × (cursor.old.state.wanted ≡ ItemWord) × (cursor.old.state.level + levels ≡ most_levels) }
    ensures lent { LentAll cursor.old cursor.new }
    ensures to { To (Stays cursor.old) cursor.old result cursor.new }
{
    step(cursor)?;
    let Wanted::GroupDue = cursor.state.wanted else {
        return three(cursor);
    };
    step(cursor)?;
    group(cursor, levels - 1)
}

// The items of a group or of the order, and the closing bracket.
#[cycle(items)]
fn group(cursor: &mut Cursor, levels: usize) -> Result<(), Fault>
    requires { Ready cursor.old × (cursor.old.state.wanted ≡ ItemOrClose) × (cursor.old.state.level + levels ≡ most_levels) }
    ensures lent { LentAll cursor.old cursor.new }
    ensures to { To (λ x. Closes cursor.old.state.level x.state.wanted x.state.level) cursor.old result cursor.new }
{
    loop {
        step(cursor)?;
        let Wanted::ItemWord = cursor.state.wanted else {
            return Ok(());
        };
        item(cursor, levels)?;
    }
}

// The order's bracket, word and boards, its items and closing bracket, and the end.
struct ByItems;

impl Way for ByItems {
    fn order(file: &[u8], work: &mut [u32], due: &mut [u32]) -> Result<Order, Fault> {
        let mut least = [0u32; 32];
        let mut cursor = Cursor::start(file, work, due, &mut least);
        three(&mut cursor)?;
        group(&mut cursor, 32)?;
        // Behind the order's closing bracket each token ends the reading.
        let Some(order) = step(&mut cursor)? else {
            unreachable!();
        };
        Ok(order)
    }
}

// For comparing the pair with the reader that ships, in its contract, word for word: crates/pair_c exports it, and its
// archive is linked into the comparisons alone.
pub fn pair_read_order(file: &[u8], work: &mut [u32], due: &mut [u32]) -> OrderRead
    ensures said { result ≡ (read_answer file.now work.old due.old).said }
    ensures works { work.new ≡ (read_answer file.now work.old due.old).work }
    ensures dues { due.new ≡ (read_answer file.now work.old due.old).due }
{
    said(read_by::<ByItems>(file, work, due))
}
