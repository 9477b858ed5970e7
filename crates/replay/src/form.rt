// The form of a trace's records: the work of the reader, on a slice and a place.
ghost use Rattle.std.specs.Prelude.{◌≡◌, ◌+◌, ◌≤◌, length, drop, IfSome};
ghost use Rattle.std.specs.Option.{unwrap_or};
ghost use Rattle.replay.specs.Answers.{found_number};
ghost use Rattle.replay.specs.Trace.{kind_length, record_size, fault_of, record_at, command_at, reply_at};

use crate::answers::Fault;

// What stands at a place of a trace: nothing any more, a whole record, or one with a fault.
#[derive(Clone, Copy)]
pub enum Record {
    End,
    Whole,
    Bad(Fault),
}

// The L of a kind, if it is one: a table from number to number, as `kind_length` is.
#[tactic(auto, unfolding(crate::specs::Trace::kind_length, octets::specs::Pick::pick))]
pub fn kind_length(kind: u8) -> Option<u8>
    ensures length { unwrap_or result 0 ≡ kind_length kind }
    ensures some { IfSome result (λ l. 1 ≤ l) }
{
    match kind {
        0x21 => Some(8),
        0x22 => Some(16),
        0x23 => Some(32),
        0x24 => Some(48),
        0x25 => Some(64),
        _ => None,
    }
}

// The fault of the record at a place, if it has one; past the end there is no kind.
pub fn fault_at(trace: &[u8], at: usize, l: u8) -> Option<Fault>
    ensures { found_number result ≡ fault_of l (drop at trace.now) }
{
    if trace.len() <= at {
        return Some(Fault::Unknown);
    }
    let Some(length) = kind_length(trace[at]) else {
        return Some(Fault::Unknown);
    };
    if length != l {
        return Some(Fault::OtherLength);
    }
    // The place is below the length here, so the difference wraps for no place.
    if trace.len() - at < 1 + 2 * (l as usize) {
        return Some(Fault::Cut);
    }
    None
}

// What stands at a place of a trace.
pub fn record_of(trace: &[u8], at: usize, l: u8) -> Record
    ensures { result ≡ record_at l trace.now at }
{
    if trace.len() <= at {
        return Record::End;
    }
    match fault_at(trace, at, l) {
        None => Record::Whole,
        Some(fault) => Record::Bad(fault),
    }
}

// The command of the whole record at a place: the L octets behind its kind.
pub fn command_of(trace: &[u8], at: usize, l: u8) -> &[u8]
    requires { at + record_size l ≤ length trace.now }
    ensures { result.now ≡ command_at l trace.now at }
{
    let from = at + 1;
    let to = from + l as usize;
    &trace[from..to]
}

// The reply of the whole record at a place: the L octets behind its command.
pub fn reply_of(trace: &[u8], at: usize, l: u8) -> &[u8]
    requires { at + record_size l ≤ length trace.now }
    ensures { result.now ≡ reply_at l trace.now at }
{
    let from = at + 1 + l as usize;
    let to = from + l as usize;
    &trace[from..to]
}

// The place behind a record.
pub fn behind_of(at: usize, l: u8) -> usize
    requires { at ≤ 1073741823 }
    ensures { result ≡ at + record_size l }
{
    at + 1 + 2 * (l as usize)
}
