// The export of the pair's static archive, which is linked into the comparisons alone: the contract of the reader that
// ships, clause for clause. C links an archive, and a crate is an archive or a library.
#![tactic(auto)]

ghost use Rattle.std.specs.Prelude.{◌≡◌};
ghost use Rattle.rules.specs.Orders.{read_answer};

use rules::OrderRead;

// For comparing the pair with the reader that ships.
#[unsafe(no_mangle)]
pub extern "C" fn pair_read_order(file: &[u8], work: &mut [u32], due: &mut [u32]) -> OrderRead
    ensures said { result ≡ (read_answer file.now work.old due.old).said }
    ensures works { work.new ≡ (read_answer file.now work.old due.old).work }
    ensures dues { due.new ≡ (read_answer file.now work.old due.old).due }
{
    pair::pair_read_order(file, work, due)
}
