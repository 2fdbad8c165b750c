// The order reader: any bytes and two lent buffers, and always an answer, accepted or refused.
// The idea of the proof: the cursor holds a reading of the definition, and one step is one of its steps. So what is still to
// be read from the place on stays what is to be read from the start.
#![tactic(auto)]

ghost use Rattle.std.specs.Prelude.{◌≡◌};
ghost use Rattle.rules.specs.Orders.{read_answer};
ghost use Rattle.grammar.specs.Turns.{Finished, LentAll, said_of};
ghost use Rattle.reader.specs.Ways.{Fits, Ready, Steps};

use grammar::{Cursor, Order, Turn, clear_behind};
use lexer::next_token;
use refusals::Fault;
use rules::{OrderRead, Refusal};

// One token: on to the next, or the order read whole, or the first fault at the token's first byte. `as` goes to fewer bits:
// the proof shows that the place fits.
pub fn step(cursor: &mut Cursor) -> Result<Option<Order>, Fault>
    requires { Ready cursor.old }
    ensures lent { LentAll cursor.old cursor.new }
    ensures steps { Steps cursor.old result cursor.new }
{
    let seen = next_token(cursor.file, cursor.at);
    let turn = match cursor.decide(seen.token, seen.place) {
        Ok(turn) => turn,
        Err(stop) => {
            return Err(Fault {
                refusal: stop.refusal,
                place: stop.place as u32,
            });
        }
    };
    match turn {
        Turn::Want(wanted) => cursor.want_next(wanted),
        Turn::Take(n) => cursor.take_in(n),
        Turn::Leave => cursor.leave(),
        Turn::Done => return Ok(Some(cursor.order())),
    }
    cursor.at = seen.next;
    Ok(None)
}

// A way of reading: token by token from the left, the first fault decides.
pub trait Way {
    fn order(file: &[u8], work: &mut [u32], due: &mut [u32]) -> Result<Order, Fault>
        requires { Fits file.now work.old due.old }
        ensures { Finished file.now result work.new due.new };
}

// One loop over the tokens.
struct InTurn;

impl Way for InTurn {
    fn order(file: &[u8], work: &mut [u32], due: &mut [u32]) -> Result<Order, Fault> {
        let mut least = [0u32; 32];
        let mut cursor = Cursor::start(file, work, due, &mut least);
        loop {
            if let Some(order) = step(&mut cursor)? {
                return Ok(order);
            }
        }
    }
}

// 01, Reader: "Order: 10 (either of the two buffers, work and due, holds under 1,000 numbers), 11, then token by token".
// The three clauses stand word for word at each reader below and at what C calls: a whole answer is stated where it is given.
// Where neither 10 nor 11 is due the answer is a way's too, so that a caller has from `read` what a way promises.
pub fn read_by<W: Way>(file: &[u8], work: &mut [u32], due: &mut [u32]) -> Result<Order, Fault>
    ensures said { said_of result ≡ (read_answer file.now work.old due.old).said }
    ensures works { work.new ≡ (read_answer file.now work.old due.old).work }
    ensures dues { due.new ≡ (read_answer file.now work.old due.old).due }
    ensures finished { Fits file.now work.old due.old → Finished file.now result work.new due.new }
{
    let room = work.len().min(due.len());
    if room < 1000 {
        return Err(Fault::from(Refusal::ShortBuffer));
    }
    if 65536 < file.len() {
        return Err(Fault::from(Refusal::LongFile));
    }
    let ended = W::order(file, work, due);
    clear_behind(ended, work, due);
    ended
}

// The reader that ships, for callers in Rattle.
pub fn read(file: &[u8], work: &mut [u32], due: &mut [u32]) -> Result<Order, Fault>
    ensures said { said_of result ≡ (read_answer file.now work.old due.old).said }
    ensures works { work.new ≡ (read_answer file.now work.old due.old).work }
    ensures dues { due.new ≡ (read_answer file.now work.old due.old).due }
    ensures finished { Fits file.now work.old due.old → Finished file.now result work.new due.new }
{
    read_by::<InTurn>(file, work, due)
}

// What a reading answers in numbers.
#[tactic(auto, unfolding(grammar::specs::Turns::said_of))]
pub fn said(ended: Result<Order, Fault>) -> OrderRead
    ensures { result ≡ said_of ended }
{
    match ended {
        Ok(order) => OrderRead::from(order),
        Err(fault) => OrderRead::from(fault),
    }
}

// The reader that ships, for callers that take numbers.
pub fn read_order(file: &[u8], work: &mut [u32], due: &mut [u32]) -> OrderRead
    ensures said { result ≡ (read_answer file.now work.old due.old).said }
    ensures works { work.new ≡ (read_answer file.now work.old due.old).work }
    ensures dues { due.new ≡ (read_answer file.now work.old due.old).due }
{
    said(read(file, work, due))
}

#[cfg(test)]
mod tests {
    use super::*;

    // A way as another crate could write it: it asks `read`, whose clause `finished` says what a way promises.
    struct AsRead;

    impl Way for AsRead {
        fn order(file: &[u8], work: &mut [u32], due: &mut [u32]) -> Result<Order, Fault> {
            read(file, work, due)
        }
    }

    #[test]
    fn read_is_a_way(rt: HostRuntime) {
        let mut work = [7; 1000];
        let mut due = [7; 1000];
        let ended = read_by::<AsRead>(b"(order 2 (group 9 (job 3 8)))", &mut work, &mut due);
        let seen = said(ended);
        assert_eq!(rt; seen.refusal, 0);
        assert_eq!(rt; seen.boards, 2);
        assert_eq!(rt; seen.jobs, 1);
        assert_eq!(rt; work[0], 3);
        assert_eq!(rt; due[0], 8);
        assert_eq!(rt; work[1], 0);
    }
}
