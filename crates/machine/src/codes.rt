// The command codes, and which link allows which.
ghost use Rattle.std.specs.Prelude.{◌≡◌};
ghost use Rattle.machine.specs.Codes.{NamesCode, is_full, is_known, is_allowed};
ghost use Rattle.machine.specs.Judgements.{alarm_number};

use sheet::walk::Form;

// The commands, by the names of document 01.
#[derive(Clone, Copy, PartialEq, Eq)]
pub enum Code {
    Nop,
    PrmRd,
    PrmWr,
    IdRd,
    AlmRd,
    AlmClr,
    SyncSet,
    Connect,
    Disconnect,
    MemRd,
    MemWr,
}

// A code that no command has.
#[derive(Clone, Copy, PartialEq, Eq)]
pub struct UnknownCode(pub u8);

impl TryFrom<u8> for Code {
    type Error = UnknownCode;

    ghost try_from_gives = { NamesCode };

    #[tactic(auto, using(std::proofs::lemmas::Bool::Decides::nat_tests), unfolding(crate::specs::Codes::is_known))]
    fn try_from(number: u8) -> Result<Code, UnknownCode> {
        match number {
            0x00 => Ok(Code::Nop),
            0x01 => Ok(Code::PrmRd),
            0x02 => Ok(Code::PrmWr),
            0x03 => Ok(Code::IdRd),
            0x05 => Ok(Code::AlmRd),
            0x06 => Ok(Code::AlmClr),
            0x0D => Ok(Code::SyncSet),
            0x0E => Ok(Code::Connect),
            0x0F => Ok(Code::Disconnect),
            0x1D => Ok(Code::MemRd),
            0x1E => Ok(Code::MemWr),
            _ => Err(UnknownCode(number)),
        }
    }
}

// The command alarms.
#[derive(Clone, Copy, PartialEq, Eq)]
pub enum Alarm {
    OutOfSupport,
    OutOfRange,
    NoRight,
    WrongPhase,
}

impl Alarm {
    // The paper's number of an alarm: a table, as `alarm_number` is, which document 01 asks for.
    pub fn number(self) -> u8
        ensures { result ≡ alarm_number self }
    {
        match self {
            Alarm::OutOfSupport => 8,
            Alarm::OutOfRange => 9,
            Alarm::NoRight => 10,
            Alarm::WrongPhase => 12,
        }
    }
}

// Whether a type has the memory commands, and a profile in CONNECT.
pub fn is_full(form: Form) -> bool
    ensures { result ≡ is_full form }
{
    match form {
        Form::Enhanced => true,
        Form::Short => false,
    }
}

// Whether a code is one of a type's: eleven, or nine.
#[tactic(auto, using(std::proofs::lemmas::Bool::Decides::nat_tests), unfolding(crate::specs::Codes::is_known, crate::specs::Codes::is_full))]
pub fn is_known(form: Form, code: u8) -> bool
    ensures { result ≡ is_known form code }
{
    match Code::try_from(code) {
        Ok(Code::MemRd | Code::MemWr) => is_full(form),
        Ok(_) => true,
        Err(_) => false,
    }
}

// Whether a link allows a known code.
#[tactic(auto, using(crate::proofs::Picks::picks, std::proofs::lemmas::Bool::Decides::nat_tests), unfolding(crate::specs::Codes::is_known, crate::specs::Codes::is_allowed))]
pub fn is_allowed(link: u8, code: u8) -> bool
    ensures { result ≡ is_allowed link code }
{
    match Code::try_from(code) {
        Ok(Code::Nop | Code::Disconnect) => true,
        Ok(Code::Connect) => link == link::state::DISCONNECTED,
        Ok(Code::SyncSet) => link == link::state::ASYNC_CONNECTED,
        _ => link != link::state::DISCONNECTED,
    }
}
