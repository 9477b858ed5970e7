// The form of a whole trace.
ghost use Rattle.std.specs.Prelude.{◌≡◌, ◌≤◌, length};
ghost use Rattle.replay.specs.Answers.{form_told};
ghost use Rattle.replay.specs.Trace.{form_of, checked_form};

use crate::answers::Stop;
use crate::form::Record;
use crate::reader::Reader;

// The first fault of a trace with its place, record by record.
fn form(trace: &[u8], l: u8) -> Result<(), Stop>
    requires { length trace.now ≤ 1073741823 }
    ensures { form_told result ≡ form_of l trace.now }
{
    let mut reader = Reader::open(trace, l, 0);
    // The reader has the place, as document 01 asks, so no range or iterator counts it.
    loop {
        match reader.record() {
            Record::End => return Ok(()),
            Record::Bad(fault) => return Err(Stop::Malformed(fault, reader.at as u32)),
            Record::Whole => reader = reader.moved(),
        }
    }
}

// The form of a trace of any length.
pub fn checked(trace: &[u8], l: u8) -> Result<(), Stop>
    ensures { form_told result ≡ checked_form l trace.now }
{
    if 1073741823 < trace.len() {
        return Err(Stop::TooLong);
    }
    form(trace, l)
}
