// Why our machine refuses a command, in one line: the alarm, and the octet of the command, or of its span, that was wrong. The fields' names are the kit's.
use machine::codes::{Alarm, Code};
use sheet::walk::Form;
use std::fmt;

// The alarms, of which a reply has the number alone.
const ALARMS: [Alarm; 4] = [
    Alarm::OutOfSupport,
    Alarm::OutOfRange,
    Alarm::NoRight,
    Alarm::WrongPhase,
];

// An octet of a command that alarm 9 is about.
#[derive(Clone, Copy)]
struct Wrong {
    form: Form,
    code: Option<Code>,
    place: u32,
}

impl Wrong {
    // The field that begins there: octet 0 stands for a PDU that is too short for the latches, and not every type has a profile. An ID_RD's offset alone is
    // never wrong.
    fn field(self) -> Option<&'static str> {
        match (self.code?, self.place) {
            (Code::PrmRd | Code::PrmWr, 4) => Some("parameter number"),
            (Code::PrmRd | Code::PrmWr | Code::IdRd, 6) => Some("size"),
            (Code::IdRd, 4) => Some("ID code"),
            (Code::AlmRd | Code::AlmClr, 0) => Some("L"),
            (Code::AlmRd | Code::AlmClr, 4) => Some("mode"),
            (Code::Connect, 4) => Some("version"),
            (Code::Connect, 5) => Some("com_mod"),
            (Code::Connect, 6) => Some("com_time"),
            (Code::Connect, 7) if machine::codes::is_full(self.form) => Some("profile"),
            (Code::MemRd | Code::MemWr, 5) => Some("element"),
            (Code::MemRd | Code::MemWr, 6) => Some("count"),
            (Code::MemRd | Code::MemWr, 8) => Some("address"),
            _ => None,
        }
    }
}

// An octet that the command does not name has no field's place, so the rule is release 2's. The identity in octet 2 is free of it; the short type has none.
impl fmt::Display for Wrong {
    fn fmt<W: fmt::Write>(&self, f: &mut fmt::Formatter<W>) -> fmt::Result {
        match self.field() {
            Some(name) => write!(f, "{name}"),
            None if self.place == 2 && machine::codes::is_full(self.form) => {
                write!(f, "which must be zero but for bits 6 and 7")
            }
            None => write!(f, "which must be zero"),
        }
    }
}

// The line, by our reply and the place that the exchange told, which for alarm 10 counts in the span; a command without an alarm has none.
pub fn print_refused(rt: &impl Print, form: Form, command: &[u8], reply: &[u8], place: u32) {
    let number = octets::octet(reply, frame::places::own_alarm_at(form)) % 16;
    let Some(alarm) = ALARMS.into_iter().find(|alarm| alarm.number() == number) else {
        return;
    };
    let wrong = Wrong {
        form,
        code: Code::try_from(octets::octet(command, 0)).ok(),
        place,
    };
    let _ = print!(rt; "ours is refused: alarm {number}");
    let _ = match alarm {
        Alarm::OutOfSupport => println!(rt; ", unknown code"),
        Alarm::OutOfRange => println!(rt; " at octet {place}, {wrong}"),
        Alarm::NoRight => println!(rt; ": octet {place} of the span lacks the right"),
        Alarm::WrongPhase => println!(rt; ", not allowed in this link"),
    };
}
