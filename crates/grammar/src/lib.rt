// One token's turn of the order grammar, and what is left in the buffers: what the reader that ships and the pair of readers
// share. The works and dues read so far stand at the front of the buffers, and for each group round the place the least due
// of it and of the groups round it stands in a list of 32.
// The idea of the proof: the cursor stands for a `Reading` of the definition; a turn means one of the definition's steps, and
// acting on it changes the cursor as it changes the reading.
#![tactic(auto)]

ghost use Rattle.std.specs.Prelude.{◌≡◌, Result, Ok, Err, List, ℕ, ◌≤◌, eqb, ltb, length, get_or, set};
ghost use Rattle.rules.specs.Basics.{pick, most_jobs, most_levels};
ghost use Rattle.rules.specs.Orders.{Reading, go, stop, done, want, bracket, word, number, ending, after_reading};
ghost use Rattle.grammar.specs.Turns.{acted, meant, misplaced_as, capped, said_of, Decides, Acts, Changes, Untouched, LentAll, Starts, Bounded, Writable, Answers, outcome_of};

use lists::clear_from;
use refusals::Fault;
use rules::{OrderRead, Refusal, Token, Wanted, Word};

// 01: "Boards run to 64; work and due to 1,000,000".
const MOST_BOARDS: u32 = 64;

const MOST_MINUTES: u32 = 1000000;

// 01: "level 32 is the deepest".
const MOST_LEVELS: usize = 32;

// 01: 7, "a 1,001st job".
const MOST_JOBS: usize = 1000;

// An order read whole: its boards, and how many jobs stand at the front of the buffers.
#[derive(Clone, Copy)]
pub struct Order {
    pub boards: u32,
    pub jobs: u32,
}

// What the reader answers to an order that is accepted.
impl From<Order> for OrderRead {
    ghost from_gives = { λ order said. said ≡ said_of (Ok order) };

    #[tactic(auto, unfolding(crate::specs::Turns::said_of))]
    fn from(order: Order) -> OrderRead {
        OrderRead {
            refusal: 0,
            place: 0,
            boards: order.boards,
            jobs: order.jobs,
        }
    }
}

// What one token leads to: on to the next thing wanted, with the number that was wanted, or out of the innermost group or
// the order; or the order is read whole.
#[derive(Clone, Copy)]
pub enum Turn {
    Want(Wanted),
    Take(u32),
    Leave,
    Done,
}

// Why the reading stops, and at which byte.
#[derive(Clone, Copy)]
pub struct Stop {
    pub refusal: Refusal,
    pub place: usize,
}

// Where the reader stands: what is wanted next, and the counts.
#[derive(Clone, Copy)]
pub struct State {
    pub wanted: Wanted,
    pub boards: u32,
    pub level: usize,
    pub jobs: usize,
}

// The place in the file, the state there, and the lists that are lent. No invariant: between a turn and the move of `at`
// behind its token it holds no reading of the file. Each loan has a lifetime of its own, so that a proof knows what each list
// ends as. The list of the least dues is lent too: as an array in here it made the reader a quarter slower.
#[derive(Drop)]
pub struct Cursor<'f, 'w, 'd, 'l> {
    pub file: &'f [u8],
    pub at: usize,
    pub state: State,
    pub work: &'w mut [u32],
    pub due: &'d mut [u32],
    pub least: &'l mut [u32],
}

// Past the end of a list nothing is stored, so that no caller has to show a bound. Not by `get_mut`: of what is written
// through that a proof knows the length alone.
fn put(list: &mut [u32], at: usize, value: u32)
    ensures { list.new ≡ set list.old at value }
{
    if at < list.len() {
        list[at] = value;
    }
}

fn stop_at(refusal: Refusal, place: usize) -> Stop
    ensures { result ≡ record { refusal = refusal; place = place } }
{
    Stop { refusal, place }
}

// A token where another is wanted: 3 at the end, 1 at a foreign byte, 2 otherwise. Three arms with one answer: the edit
// four_for_a_bracket turns a bracket's alone.
#[tactic(auto, unfolding(crate::specs::Turns::misplaced_as))]
fn misplaced(token: Token, place: usize) -> Stop
    ensures { result ≡ record { refusal = misplaced_as token; place = place } }
{
    let refusal = match token {
        Token::Open => Refusal::NotAllowed,
        Token::Close => Refusal::NotAllowed,
        Token::Atom(_) => Refusal::NotAllowed,
        Token::End => Refusal::Unclosed,
        Token::Foreign => Refusal::ForeignByte,
    };
    stop_at(refusal, place)
}

#[tactic(auto, using(crate::specs::Laws::bracket_misplaced), unfolding(rules::specs::Orders::bracket, crate::specs::Turns::meant))]
fn bracket_wanted(
    token: Token,
    place: usize,
    opens: Result<Turn, Stop>,
    closes: Result<Turn, Stop>,
) -> Result<Turn, Stop>
    ensures { (r : Reading) → meant r result ≡ bracket token place (meant r opens) (meant r closes) }
{
    match token {
        Token::Open => opens,
        Token::Close => closes,
        _ => Err(misplaced(token, place)),
    }
}

#[tactic(auto, using(crate::specs::Laws::word_misplaced), unfolding(rules::specs::Orders::word, rules::specs::Orders::atom_word, crate::specs::Turns::meant))]
fn word_wanted(
    token: Token,
    place: usize,
    order: Result<Turn, Stop>,
    group: Result<Turn, Stop>,
    job: Result<Turn, Stop>,
) -> Result<Turn, Stop>
    ensures { (r : Reading) → meant r result ≡ word token place (meant r order) (meant r group) (meant r job) }
{
    let Token::Atom(name) = token else {
        return Err(misplaced(token, place));
    };
    match name {
        Word::Order => order,
        Word::Group => group,
        Word::Job => job,
        _ => Err(misplaced(token, place)),
    }
}

// 01: "is refused where the grammar wants a number": 4 for an atom that is none, 2 for a bracket, 5 above the limit.
#[tactic(auto, using(crate::specs::Laws::number_misplaced, crate::specs::Laws::number_none), unfolding(crate::specs::Turns::meant))]
fn number_wanted(token: Token, place: usize, limit: u32) -> Result<Turn, Stop>
    ensures { (r : Reading) → meant r result ≡ number limit token place (λ n. go (acted r (Turn.Take n))) }
{
    let Token::Atom(name) = token else {
        return Err(misplaced(token, place));
    };
    let Word::Number(n) = name else {
        return Err(stop_at(Refusal::NoNumber, place));
    };
    if limit < n {
        return Err(stop_at(Refusal::AboveLimit, place));
    }
    Ok(Turn::Take(n))
}

#[tactic(auto, using(crate::specs::Laws::ending_misplaced), unfolding(rules::specs::Orders::ending, crate::specs::Turns::meant))]
fn end_wanted(token: Token, place: usize, ends: Result<Turn, Stop>) -> Result<Turn, Stop>
    ensures { (r : Reading) → meant r result ≡ ending token place (meant r ends) }
{
    match token {
        Token::End => ends,
        other => Err(misplaced(other, place)),
    }
}

// 01: 6, "a group at level 33", and 7, "a 1,001st job": one more of what there may be so many of, or the refusal.
#[tactic(auto, unfolding(rules::specs::Orders::want, crate::specs::Turns::meant, crate::specs::Turns::turned, crate::specs::Turns::acted))]
fn begins(so_far: usize, most: usize, wanted: Wanted, full: Stop) -> Result<Turn, Stop>
    ensures { (r : Reading) → meant r result ≡ pick (ltb so_far most) (want r wanted) (stop full.refusal full.place) }
{
    if so_far < most {
        return Ok(Turn::Want(wanted));
    }
    Err(full)
}

// 01: 8, "a well-formed order without a job".
#[tactic(auto, unfolding(crate::specs::Turns::meant, crate::specs::Turns::turned))]
fn order_ends(jobs: usize, place: usize) -> Result<Turn, Stop>
    ensures { (r : Reading) → meant r result ≡ pick (eqb jobs 0) (stop Refusal.NoJob place) done }
{
    if jobs == 0 {
        return Err(stop_at(Refusal::NoJob, place));
    }
    Ok(Turn::Done)
}

impl<'f, 'w, 'd, 'l> Cursor<'f, 'w, 'd, 'l> {
    // At the file's first byte.
    #[tactic(auto, using(crate::specs::Steps::stands_start))]
    pub fn start(
        file: &'f [u8],
        work: &'w mut [u32],
        due: &'d mut [u32],
        least: &'l mut [u32],
    ) -> Cursor<'f, 'w, 'd, 'l>
        ensures work { result.work.ghost_name ≡ work.entry.ghost_name }
        ensures due { result.due.ghost_name ≡ due.entry.ghost_name }
        ensures least { result.least.ghost_name ≡ least.entry.ghost_name }
        ensures starts { Starts result file.now work.old due.old least.old }
    {
        let state = State {
            wanted: Wanted::OrderOpen,
            boards: 0,
            level: 0,
            jobs: 0,
        };
        Cursor {
            file,
            at: 0,
            state,
            work,
            due,
            least,
        }
    }

    // 01: "the least of its own and those of all groups round it"; the innermost group's entry is the least of all of them.
    #[tactic(auto, using(crate::specs::Laws::capped_none, crate::specs::Laws::capped_round))]
    fn least_due(&self, due: u32) -> u32
        ensures { result ≡ capped due self.now.state.level self.now.least.now }
    {
        if self.state.level == 0 {
            return due;
        }
        let round = self.least.get(self.state.level - 1).copied().unwrap_or(0);
        due.min(round)
    }

    // An item's word: a group or a job begins.
    #[tactic(auto, unfolding(crate::specs::Turns::meant))]
    fn item_wanted(&self, token: Token, place: usize) -> Result<Turn, Stop>
        ensures { (r : Reading) → meant r result ≡ word token place (stop Refusal.NotAllowed place)
            (pick (ltb self.now.state.level most_levels) (want r Wanted.GroupDue) (stop Refusal.TooDeep place))
            (pick (ltb self.now.state.jobs most_jobs) (want r Wanted.JobWork) (stop Refusal.TooManyJobs place)) }
    {
        let no = stop_at(Refusal::NotAllowed, place);
        let deep = stop_at(Refusal::TooDeep, place);
        let many = stop_at(Refusal::TooManyJobs, place);
        let group = begins(self.state.level, MOST_LEVELS, Wanted::GroupDue, deep);
        let job = begins(self.state.jobs, MOST_JOBS, Wanted::JobWork, many);
        word_wanted(token, place, Err(no), group, job)
    }

    // The grammar, a line for each thing that it can want.
    #[tactic(auto, using(crate::specs::Laws::leave_left, crate::specs::Laws::empty_is, crate::specs::Laws::whole_jobs), unfolding(rules::specs::Orders::step_at, rules::specs::Orders::want, crate::specs::Turns::meant, crate::specs::Turns::turned, crate::specs::Turns::acted, crate::specs::Turns::taken, crate::specs::Turns::half))]
    pub fn decide(&self, token: Token, place: usize) -> Result<Turn, Stop>
        ensures { Decides self.now.state token place result }
    {
        let no = Err(stop_at(Refusal::NotAllowed, place));
        match self.state.wanted {
            Wanted::OrderOpen => bracket_wanted(
                token,
                place,
                Ok(Turn::Want(Wanted::OrderWord)),
                no,
            ),
            Wanted::OrderWord => word_wanted(token, place, Ok(Turn::Want(Wanted::Boards)), no, no),
            Wanted::Boards => number_wanted(token, place, MOST_BOARDS),
            Wanted::ItemOrClose => {
                bracket_wanted(
                    token,
                    place,
                    Ok(Turn::Want(Wanted::ItemWord)),
                    Ok(Turn::Leave),
                )
            }
            Wanted::ItemWord => self.item_wanted(token, place),
            Wanted::GroupDue | Wanted::JobWork | Wanted::JobDue => {
                number_wanted(token, place, MOST_MINUTES)
            }
            Wanted::JobClose => bracket_wanted(
                token,
                place,
                no,
                Ok(Turn::Want(Wanted::ItemOrClose)),
            ),
            Wanted::Finish => end_wanted(token, place, order_ends(self.state.jobs, place)),
        }
    }

    pub fn want_next(&mut self, wanted: Wanted)
        ensures lent { LentAll self.old self.new }
        ensures changes { Changes self.old.state (Turn.Want wanted) self.new.state }
        ensures stays { Untouched self.old self.new }
    {
        self.state.wanted = wanted;
    }

    // `)` leaves the innermost group, or the order.
    pub fn leave(&mut self)
        ensures lent { LentAll self.old self.new }
        ensures changes { Changes self.old.state Turn.Leave self.new.state }
        ensures stays { Untouched self.old self.new }
    {
        if self.state.level == 0 {
            self.state.wanted = Wanted::Finish;
            return;
        }
        self.state.level -= 1;
        self.state.wanted = Wanted::ItemOrClose;
    }

    // A number, taken for what was wanted: the boards, a group's due, a job's work or a job's due.
    pub fn take_in(&mut self, n: u32)
        requires { Bounded self.old.state }
        ensures lent { LentAll self.old self.new }
        ensures acts { Acts self.old (Turn.Take n) self.new }
        ensures place { self.new.at ≡ self.old.at }
    {
        match self.state.wanted {
            Wanted::Boards => {
                self.state.boards = n;
                self.state.wanted = Wanted::ItemOrClose;
            }
            Wanted::GroupDue => {
                let round = self.least_due(n);
                put(self.least, self.state.level, round);
                self.state.level += 1;
                self.state.wanted = Wanted::ItemOrClose;
            }
            Wanted::JobWork => {
                put(self.work, self.state.jobs, n);
                self.state.wanted = Wanted::JobDue;
            }
            Wanted::JobDue => {
                let own = self.least_due(n);
                put(self.due, self.state.jobs, own);
                self.state.jobs += 1;
                self.state.wanted = Wanted::JobClose;
            }
            _ => {}
        }
    }

    // What was read, once it is read whole.
    pub fn order(&self) -> Order
        requires { Bounded self.now.state }
        ensures { result ≡ record { boards = self.now.state.boards; jobs = self.now.state.jobs } }
    {
        Order {
            boards: self.state.boards,
            jobs: self.state.jobs as u32,
        }
    }
}

// 01, Reader: the lists at the front and zeros to the ends, or both buffers all zero. Each buffer is cleared once.
pub fn clear_behind(ended: Result<Order, Fault>, work: &mut [u32], due: &mut [u32])
    requires { Writable ended work.old due.old }
    ensures { Answers (after_reading (outcome_of ended work.old due.old) work.old due.old) ended work.new due.new }
{
    // `as`, here and in `order`, goes to or from `usize`: the proof shows that the number fits.
    let kept = match ended {
        Ok(order) => order.jobs as usize,
        Err(_) => 0,
    };
    clear_from(work, kept);
    clear_from(due, kept);
}

#[cfg(test)]
mod tests {
    use super::*;

    // Who lends the least dues knows what that list ends as: what `least` and `same_least` say.
    fn begun_and_left(file: &[u8], work: &mut [u32], due: &mut [u32], least: &mut [u32])
        ensures { least.new ≡ least.old }
    {
        let mut cursor = Cursor::start(file, work, due, least);
        cursor.want_next(Wanted::ItemOrClose);
        cursor.leave();
    }

    #[test]
    fn least_dues_stay(rt: HostRuntime) {
        let mut work = [7; 2];
        let mut due = [7; 2];
        let mut least = [5; 2];
        begun_and_left(b"()", &mut work, &mut due, &mut least);
        assert_eq!(rt; least[0], 5);
        assert_eq!(rt; least[1], 5);
    }
}
