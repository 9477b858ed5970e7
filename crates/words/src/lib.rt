// Commands in words, and numbers of octets, for the programs.
#![tactic(auto)]

pub mod refused; // refused.rt: which octet of a command was wrong
pub mod watchdog; // watchdog.rt: why the watchdog failed

use machine::codes::Code;
use machine::words::Command;
use sheet::walk::Form;
use std::fmt;

// A number of octets; the number itself is printed.
#[derive(Clone, Copy)]
pub struct Octets(pub u64);

impl fmt::Display for Octets {
    fn fmt<W: fmt::Write>(&self, f: &mut fmt::Formatter<W>) -> fmt::Result {
        match self.0 {
            1 => write!(f, "1 octet"),
            n => write!(f, "{n} octets"),
        }
    }
}

// A command's name, as document 01 has it.
fn name(code: Code) -> &'static str {
    match code {
        Code::Nop => "NOP",
        Code::PrmRd => "PRM_RD",
        Code::PrmWr => "PRM_WR",
        Code::IdRd => "ID_RD",
        Code::AlmRd => "ALM_RD",
        Code::AlmClr => "ALM_CLR",
        Code::SyncSet => "SYNC_SET",
        Code::Connect => "CONNECT",
        Code::Disconnect => "DISCONNECT",
        Code::MemRd => "MEM_RD",
        Code::MemWr => "MEM_WR",
    }
}

// The span of a memory command, by the number that the octet has: the element in its mode's high half (docs/DECISIONS.md, 1); a mode that names none is shown as it stands.
#[derive(Clone, Copy)]
struct Span {
    mode: u8,
    count: u16,
}

impl fmt::Display for Span {
    fn fmt<W: fmt::Write>(&self, f: &mut fmt::Formatter<W>) -> fmt::Result {
        let count = u64::from(self.count);
        match self.mode {
            0x11 => write!(f, "{}", Octets(count)),
            0x21 => write!(f, "{}", Octets(2 * count)),
            0x31 => write!(f, "{}", Octets(4 * count)),
            mode => write!(f, "mode {mode:02X}, count {count}"),
        }
    }
}

// What a connection asks for; not every type has a profile.
#[derive(Clone, Copy)]
struct Connection {
    form: Form,
    fields: Command,
}

impl fmt::Display for Connection {
    fn fmt<W: fmt::Write>(&self, f: &mut fmt::Formatter<W>) -> fmt::Result {
        let c = self.fields;
        write!(
            f,
            "version {:02X}, com_mod {:02X}, com_time {}",
            c.version, c.com_mod, c.com_time
        )?;
        if machine::codes::is_full(self.form) {
            write!(f, ", profile {:02X}", c.profile)?;
        }
        Ok(())
    }
}

// A command of a known code: its name, and the data that such a command has. At L 8 a memory command has no address.
#[derive(Clone, Copy)]
struct Known {
    form: Form,
    length: usize,
    code: Code,
    fields: Command,
}

impl fmt::Display for Known {
    fn fmt<W: fmt::Write>(&self, f: &mut fmt::Formatter<W>) -> fmt::Result {
        let name = name(self.code);
        let c = self.fields;
        let span = Span {
            mode: c.mode,
            count: c.count,
        };
        let connection = Connection {
            form: self.form,
            fields: c,
        };
        match self.code {
            Code::PrmRd | Code::PrmWr => {
                write!(
                    f,
                    "{name} number {}, {}",
                    c.number,
                    Octets(u64::from(c.size))
                )
            }
            Code::IdRd => write!(
                f,
                "{name} item {:02X}, offset {}, {}",
                c.item,
                c.offset,
                Octets(u64::from(c.count))
            ),
            Code::AlmRd | Code::AlmClr => write!(f, "{name} mode {}", c.alarm_mode),
            Code::Connect => write!(f, "{name} {connection}"),
            Code::MemRd | Code::MemWr if self.length < 12 => {
                write!(f, "{name} without an address, {span}")
            }
            Code::MemRd | Code::MemWr => write!(f, "{name} address {:08X}, {span}", c.address),
            Code::Nop | Code::SyncSet | Code::Disconnect => write!(f, "{name}"),
        }
    }
}

// A command's line; which codes are known, and where its fields stand, is its type's.
pub fn print_command(rt: &impl Print, form: Form, command: &[u8]) {
    let fields = frame::fields::command_of(form, command);
    let _ = match Code::try_from(fields.code) {
        Ok(code) if machine::codes::is_known(form, fields.code) => {
            let known = Known {
                form,
                length: command.len(),
                code,
                fields,
            };
            println!(rt; "command: {known}")
        }
        _ => println!(rt; "command: unknown code {:02X}", fields.code),
    };
}
