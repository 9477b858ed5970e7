// What a call tells: document 01's number, and a place, of a sheet's fault, in a refused command or of a trace. One type serves every call.
ghost use Rattle.std.specs.Prelude.{◌≡◌};
ghost use Rattle.slave.specs.Answers.{told, refusal_answer, sheet_answer};
ghost use Rattle.slave.specs.declared.answers.Refusal.TheVariants.{Sheet};

use sheet::records::Flaw;
use sheet::walk::Layout;

#[derive(Clone, Copy)]
pub struct Answer {
    pub number: u8,
    pub place: u32,
}

// Why a call is refused.
#[derive(Clone, Copy)]
pub enum Refusal {
    Sheet(Flaw),
    BadState,
    BadMemory,
    BadCommand,
    BadReply,
    IsDisabled,
    NotDisabled,
}

impl From<Flaw> for Refusal {
    ghost from_gives = { λ flaw r. r ≡ Sheet flaw };

    fn from(flaw: Flaw) -> Refusal {
        Refusal::Sheet(flaw)
    }
}

// The number and the place of a refusal: a table, as `refusal_answer` is, which document 01 asks for.
impl From<Refusal> for Answer {
    ghost from_gives = { λ refusal answer. answer ≡ refusal_answer refusal };

    fn from(refusal: Refusal) -> Answer {
        match refusal {
            Refusal::Sheet(flaw) => Answer {
                number: flaw.fault.number(),
                place: flaw.place as u32,
            },
            Refusal::BadState => plain(1),
            Refusal::BadMemory => plain(2),
            Refusal::BadCommand => plain(3),
            Refusal::BadReply => plain(4),
            Refusal::IsDisabled => plain(5),
            Refusal::NotDisabled => plain(6),
        }
    }
}

// The verdict on a sheet as an answer: 0 for a valid one.
#[tactic(auto, unfolding(crate::specs::Answers::sheet_answer))]
pub fn sheet_answer(verdict: Result<Layout, Flaw>) -> Answer
    ensures { result ≡ sheet_answer verdict }
{
    match verdict {
        Ok(_) => done(0),
        // Field by field, as they were stored: the two read at once would wait for both.
        Err(Flaw { fault, place }) => Answer {
            number: fault.number(),
            place: u32::from(place),
        },
    }
}

// A number without a place.
pub fn plain(number: u8) -> Answer
    ensures { result ≡ told number 0 }
{
    Answer { number, place: 0 }
}

// 0, and where a call tells one the place.
pub fn done(place: u32) -> Answer
    ensures { result ≡ told 0 place }
{
    Answer { number: 0, place }
}
