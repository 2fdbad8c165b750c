// A refusal with its place, and the answer that each call gives to it: its number, its place, and 0 for all else.
// Reader, planner, checker and plan files pass it up by `?`; what C is given is made of it in one step.
#![tactic(auto)]

ghost use Rattle.std.specs.Prelude.{◌≡◌};
ghost use Rattle.rules.specs.Refusals.{number_of};
ghost use Rattle.rules.specs.Checking.{refused_check};

use rules::{Checked, OrderRead, Planned, Refusal, RowPart, Written};

// Why an answer is refused, and the place that it names.
#[derive(Clone, Copy)]
pub struct Fault {
    pub refusal: Refusal,
    pub place: u32,
}

// "Where nothing else is said .. a refusal's place is 0".
impl From<Refusal> for Fault {
    ghost from_gives = { λ refusal fault. fault ≡ record { refusal = refusal; place = 0 } };

    fn from(refusal: Refusal) -> Fault {
        Fault { refusal, place: 0 }
    }
}

impl From<Fault> for OrderRead {
    ghost from_gives = { λ fault said. said ≡ record { refusal = number_of fault.refusal; place = fault.place; boards = 0; jobs = 0 } };

    fn from(fault: Fault) -> OrderRead {
        OrderRead {
            refusal: u32::from(fault.refusal),
            place: fault.place,
            boards: 0,
            jobs: 0,
        }
    }
}

impl From<Fault> for Planned {
    ghost from_gives = { λ fault said. said ≡ record { refusal = number_of fault.refusal; place = fault.place; rows = 0 } };

    fn from(fault: Fault) -> Planned {
        Planned {
            refusal: u32::from(fault.refusal),
            place: fault.place,
            rows: 0,
        }
    }
}

impl From<Fault> for Checked {
    ghost from_gives = { λ fault said. said ≡ refused_check fault.refusal fault.place };

    #[tactic(auto, unfolding(rules::specs::Checking::refused_check))]
    fn from(fault: Fault) -> Checked {
        Checked {
            refusal: u32::from(fault.refusal),
            place: fault.place,
            yes: 0,
            preemptions: 0,
        }
    }
}

impl From<Fault> for RowPart {
    ghost from_gives = { λ fault said. said ≡ record { refusal = number_of fault.refusal; place = fault.place; offset = 0; length = 0 } };

    fn from(fault: Fault) -> RowPart {
        RowPart {
            refusal: u32::from(fault.refusal),
            place: fault.place,
            offset: 0,
            length: 0,
        }
    }
}

impl From<Fault> for Written {
    ghost from_gives = { λ fault said. said ≡ record { refusal = number_of fault.refusal; place = fault.place; length = 0 } };

    fn from(fault: Fault) -> Written {
        Written {
            refusal: u32::from(fault.refusal),
            place: fault.place,
            length: 0,
        }
    }
}
