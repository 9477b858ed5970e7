// "A reader that holds the trace and its place hands out one record at a time": few thin functions over a trace and a place in it; form.rt does
// the work, on a slice and a place. Command and reply are two, as `command_at` and `reply_at` are.
ghost use Rattle.std.specs.Prelude.{◌≡◌, ◌+◌, ◌≤◌, length};
ghost use Rattle.replay.specs.Trace.{record_size, record_at, command_at, reply_at};

use crate::form::Record;

// A trace of records with this L, and a place in it.
#[derive(Clone, Copy)]
pub struct Reader<'a> {
    pub trace: &'a [u8],
    pub l: u8,
    pub at: usize,
}

impl<'a> Reader<'a> {
    // A reader of a trace at a place.
    pub fn open(trace: &'a [u8], l: u8, at: usize) -> Reader<'a>
        ensures { result ≡ record { trace = trace.entry; l = l; at = at } }
    {
        Reader { trace, l, at }
    }

    // What stands at the reader's place.
    pub fn record(self) -> Record
        ensures { result ≡ record_at self.entry.l self.entry.trace.now self.entry.at }
    {
        crate::form::record_of(self.trace, self.at, self.l)
    }

    // The command of the whole record at the reader's place.
    pub fn command(self) -> &'a [u8]
        requires { self.at + record_size self.l ≤ length self.trace.now }
        ensures { result.now ≡ command_at self.entry.l self.entry.trace.now self.entry.at }
    {
        crate::form::command_of(self.trace, self.at, self.l)
    }

    // The reply of the whole record at the reader's place.
    pub fn reply(self) -> &'a [u8]
        requires { self.at + record_size self.l ≤ length self.trace.now }
        ensures { result.now ≡ reply_at self.entry.l self.entry.trace.now self.entry.at }
    {
        crate::form::reply_of(self.trace, self.at, self.l)
    }

    // The reader, moved behind the record at its place.
    pub fn moved(self) -> Reader<'a>
        requires { self.at ≤ 1073741823 }
        ensures { result ≡ record self.entry { at = self.entry.at + record_size self.entry.l } }
    {
        Reader {
            at: crate::form::behind_of(self.at, self.l),
            ..self
        }
    }
}
