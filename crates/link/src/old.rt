// The state record of release 1: ten octets of kind 11 hex. It is read here alone, and for the turning call alone.
ghost use Rattle.std.specs.Prelude.{◌≡◌};
ghost use Rattle.link.specs.Old.{old_state_of};

use crate::state::LinkState;

pub const OLD_LENGTH: usize = 10;

// The paper's number of the record's kind, as an argument of `recorded`; an enum would be turned back into it.
const OLD_KIND: u8 = 0x11;

// The state that an old record holds beside a sheet with this L. It has no count, and an octet past its end counts as 0.
#[tactic(auto, unfolding(crate::specs::Old::old_state_of))]
pub fn read_old(state: &[u8], l: u8) -> Option<LinkState>
    ensures { result ≡ old_state_of state.now l }
{
    crate::stored::recorded(state, OLD_LENGTH, OLD_KIND, l, 0)
}
