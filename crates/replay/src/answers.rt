// Why a replay stops before the end of its trace.
ghost use Rattle.std.specs.Prelude.{◌≡◌};
ghost use Rattle.replay.specs.Answers.{fault_number, stop_answer};
ghost use Rattle.replay.specs.declared.answers.Stop.TheVariants.{Refused};
ghost use Rattle.slave.specs.declared.answers.Refusal.TheVariants.{Sheet};

use sheet::records::Flaw;
use slave::answers::{Answer, Refusal};

// What is wrong with a record of a trace.
#[derive(Clone, Copy, PartialEq, Eq)]
pub enum Fault {
    Unknown,
    OtherLength,
    Cut,
}

impl Fault {
    // The paper's number of a fault: a table, as `fault_number` is, which document 01 asks for.
    pub fn number(self) -> u8
        ensures { result ≡ fault_number self }
    {
        match self {
            Fault::Unknown => 31,
            Fault::OtherLength => 32,
            Fault::Cut => 33,
        }
    }
}

// A refusal of document 01's; a record's fault with its first octet; the octets, 64 to a record, before the first that is not our machine's; or a trace whose
// places would not fit.
#[derive(Clone, Copy)]
pub enum Stop {
    Refused(Refusal),
    Malformed(Fault, u32),
    Differs(u32),
    TooLong,
}

impl From<Flaw> for Stop {
    ghost from_gives = { λ flaw r. r ≡ Refused (Sheet flaw) };

    fn from(flaw: Flaw) -> Stop {
        Stop::Refused(Refusal::Sheet(flaw))
    }
}

impl From<Refusal> for Stop {
    ghost from_gives = { λ refusal r. r ≡ Refused refusal };

    fn from(refusal: Refusal) -> Stop {
        Stop::Refused(refusal)
    }
}

// The number and the place of a stop.
impl From<Stop> for Answer {
    ghost from_gives = { λ stop answer. answer ≡ stop_answer stop };

    fn from(stop: Stop) -> Answer {
        match stop {
            Stop::Refused(refusal) => Answer::from(refusal),
            Stop::Malformed(fault, place) => Answer {
                number: fault.number(),
                place,
            },
            Stop::Differs(place) => Answer { number: 34, place },
            Stop::TooLong => slave::answers::plain(35),
        }
    }
}
