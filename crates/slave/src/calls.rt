// Reset and enable.
ghost use Rattle.std.specs.Prelude.{◌≡◌};
ghost use Rattle.slave.specs.Answers.{answered};
ghost use Rattle.slave.specs.Calls.{after, reset_of, enable_of};

use crate::answers::Refusal;
use link::state::LinkState;

// Disabled with the sheet's L and zeros, over eleven octets of any content.
pub fn reset(sheet: &[u8], state: &mut [u8]) -> Result<(), Refusal>
    ensures { after (answered result) state.new ≡ reset_of sheet.now state.old }
{
    let layout = sheet::walk::check(sheet)?;
    if state.len() != link::stored::STATE_LENGTH {
        return Err(Refusal::BadState);
    }
    link::stored::write(state, LinkState::fresh(layout.l));
    Ok(())
}

// Disabled becomes Disconnected.
pub fn enable(sheet: &[u8], state: &mut [u8]) -> Result<(), Refusal>
    ensures { after (answered result) state.new ≡ enable_of sheet.now state.old }
{
    let layout = sheet::walk::check(sheet)?;
    let held = link::stored::read(state, layout.l, layout.tolerance);
    let st = held.ok_or(Refusal::BadState)?;
    if st.link != link::state::DISABLED {
        return Err(Refusal::NotDisabled);
    }
    link::stored::write(state, st.enabled());
    Ok(())
}
