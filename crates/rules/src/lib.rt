// What the other crates share: the words of the order file, the refusals and the numbers that each call answers.
// The rules themselves are the definitions in specs/, to be read in the order of specs/Lib.antt.
#![tactic(auto)]

ghost use Rattle.std.specs.Prelude.{◌≡◌};
ghost use Rattle.rules.specs.Refusals.{number_of};

// An atom by kind.
#[derive(Clone, Copy)]
pub enum Word {
    Order,
    Group,
    Job,
    Number(u32),
    Other,
}

// A token; and a byte of no allowed kind, which stops the reading.
#[derive(Clone, Copy)]
pub enum Token {
    Open,
    Close,
    Atom(Word),
    End,
    Foreign,
}

// What the grammar wants next.
#[derive(Clone, Copy)]
pub enum Wanted {
    OrderOpen,
    OrderWord,
    Boards,
    ItemOrClose,
    ItemWord,
    GroupDue,
    JobWork,
    JobDue,
    JobClose,
    Finish,
}

// Why an answer is refused; the number of each stands in specs/Refusals.antt.
#[derive(Clone, Copy)]
pub enum Refusal {
    ForeignByte,
    NotAllowed,
    Unclosed,
    NoNumber,
    AboveLimit,
    TooDeep,
    TooManyJobs,
    NoJob,
    NoPlan,
    ShortBuffer,
    LongFile,
    BadBoards,
    BadLists,
    OutOfRange,
    BadTrailer,
}

// The number of each refusal; 0, accepted, is no refusal.
impl From<Refusal> for u32 {
    ghost from_gives = { λ refusal n. n ≡ number_of refusal };

    #[tactic(auto, unfolding(crate::specs::Refusals::number_of))]
    fn from(refusal: Refusal) -> u32 {
        match refusal {
            Refusal::ForeignByte => 1,
            Refusal::NotAllowed => 2,
            Refusal::Unclosed => 3,
            Refusal::NoNumber => 4,
            Refusal::AboveLimit => 5,
            Refusal::TooDeep => 6,
            Refusal::TooManyJobs => 7,
            Refusal::NoJob => 8,
            Refusal::NoPlan => 9,
            Refusal::ShortBuffer => 10,
            Refusal::LongFile => 11,
            Refusal::BadBoards => 12,
            Refusal::BadLists => 13,
            Refusal::OutOfRange => 14,
            Refusal::BadTrailer => 15,
        }
    }
}

// A job, as the lists name it: its number, counted from 1, its work and its due minute.
#[derive(Clone, Copy)]
pub struct Job {
    pub number: u32,
    pub work: u32,
    pub due: u32,
}

// A row's four numbers.
#[repr(C)]
#[derive(Clone, Copy)]
pub struct TableRow {
    pub board: u32,
    pub job: u32,
    pub from: u32,
    pub to: u32,
}

// A board, counted from 0, with its room; room 0 says that there is none, as the definitions `greatest_up_to` and
// `place_last` have it.
#[derive(Clone, Copy)]
pub struct Spot {
    pub board: usize,
    pub room: u32,
}

// What C is given of each call: structs of numbers, the refusal's number and place in front (C's interface has no other
// form). Inside, answers are Results. This one is the order reader's, beside the two lists.
#[repr(C)]
#[derive(Clone, Copy)]
pub struct OrderRead {
    pub refusal: u32,
    pub place: u32,
    pub boards: u32,
    pub jobs: u32,
}

// What the planner answers, beside the table.
#[repr(C)]
#[derive(Clone, Copy)]
pub struct Planned {
    pub refusal: u32,
    pub place: u32,
    pub rows: u32,
}

// What the checker answers; yes is 1, no is 0.
#[repr(C)]
#[derive(Clone, Copy)]
pub struct Checked {
    pub refusal: u32,
    pub place: u32,
    pub yes: u32,
    pub preemptions: u32,
}

// What the plan-file reader answers: the part of the file that holds the rows.
#[repr(C)]
#[derive(Clone, Copy)]
pub struct RowPart {
    pub refusal: u32,
    pub place: u32,
    pub offset: u32,
    pub length: u32,
}

// What the plan-file writer answers, beside the buffer.
#[repr(C)]
#[derive(Clone, Copy)]
pub struct Written {
    pub refusal: u32,
    pub place: u32,
    pub length: u32,
}
