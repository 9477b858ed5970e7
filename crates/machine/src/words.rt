// A command by value, and what comes of it.
ghost use Rattle.std.specs.Prelude.{◌≡◌, Err};
ghost use Rattle.machine.specs.Judgements.{refused};
ghost use Rattle.machine.specs.declared.codes.Alarm.TheVariants.{OutOfRange};

use crate::codes::Alarm;
use link::state::LinkState;

// The fields of a command. Each command names the fields it has; `frame` knows at which octets they stand, and gives 0 for one that a type lacks.
#[derive(Clone, Copy)]
pub struct Command {
    pub code: u8,
    pub wdt: u8,
    pub identity: u8,
    pub number: u16,
    pub size: u8,
    pub item: u8,
    pub offset: u8,
    pub count: u16,
    pub mode: u8,
    pub address: u32,
    pub version: u8,
    pub com_mod: u8,
    pub com_time: u8,
    pub profile: u8,
    pub alarm_mode: u16,
}

// Which command moves data: the parameter commands or the memory commands.
#[derive(Clone, Copy)]
pub enum Carrier {
    Parameter,
    Memory,
}

// What an exchange does beside the state: octets read from or written to memory at a place, octets of an ID item at a place of the sheet,
// the two latches as they were, the connection's fields, or nothing.
#[derive(Clone, Copy)]
pub enum Effect {
    Quiet,
    Reads(Carrier, u32, u8),
    Writes(Carrier, u32, u8),
    Identifies(u32, u8),
    Alarms(u8, u8),
    Connects,
}

// What a refusal is about: the field whose check failed, the octet that should be zero, or the octet of the span that lacks the right, by how many octets
// come before it; the whole command where its code, its link or L is at fault. `frame` knows at which octets the fields begin.
#[derive(Clone, Copy)]
pub enum Field {
    Whole,
    Number,
    Size,
    Item,
    Count,
    Mode,
    Address,
    Version,
    ComMod,
    ComTime,
    Profile,
    AlarmMode,
    Stray(u8),
    Span(u8),
}

// What checks 2 to 5 execute, with the state that it leaves.
#[derive(Clone, Copy)]
pub struct Done {
    pub effect: Effect,
    pub next: LinkState,
}

// What checks 2 to 5 refuse: an alarm with what it is about.
#[derive(Clone, Copy)]
pub struct Refused {
    pub alarm: Alarm,
    pub field: Field,
}

impl Refused {
    // A field out of its range: check 4.
    pub fn out_of_range(field: Field) -> Refused
        ensures { Err result ≡ refused OutOfRange field }
    {
        Refused {
            alarm: Alarm::OutOfRange,
            field,
        }
    }
}

// What an exchange comes to: this command's alarm and what it is about, what is done, and the next state. The alarm is its number, 0 for none, as the reply
// and the latches have it.
#[derive(Clone, Copy)]
pub struct Outcome {
    pub alarm: u8,
    pub field: Field,
    pub effect: Effect,
    pub next: LinkState,
}
