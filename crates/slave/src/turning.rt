// The turning call: a host's state record of release 1 becomes one of today. It begins as `enable` does, but reads another record and writes it elsewhere.
ghost use Rattle.std.specs.Prelude.{◌≡◌};
ghost use Rattle.slave.specs.Answers.{answered};
ghost use Rattle.slave.specs.Calls.{after, turn_of};

use crate::answers::Refusal;

// A valid old record beside this sheet, written as a new one over eleven octets of any content; the old one is only read.
pub fn turn(sheet: &[u8], old: &[u8], state: &mut [u8]) -> Result<(), Refusal>
    ensures { after (answered result) state.new ≡ turn_of sheet.now old.now state.old }
{
    let layout = sheet::walk::check(sheet)?;
    let held = link::old::read_old(old, layout.l);
    let st = held.ok_or(Refusal::BadState)?;
    if state.len() != link::stored::STATE_LENGTH {
        return Err(Refusal::BadState);
    }
    link::stored::write(state, st);
    Ok(())
}
