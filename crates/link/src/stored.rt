// The state record: eleven octets, read whole and written whole.
ghost use Rattle.std.specs.Prelude.{◌≡◌};
ghost use Rattle.link.specs.Stored.{fields_of, recorded_of, state_of, stored};

use crate::state::{Latches, LinkState, Watch};

pub const STATE_LENGTH: usize = 11;

// The paper's number of the record's kind, as an argument of `recorded`; an enum would be turned back into it.
const KIND: u8 = 0x12;

// The fields of a record, whatever they hold.
#[tactic(auto, unfolding(crate::specs::Stored::fields_of))]
pub fn fields(state: &[u8]) -> LinkState
    ensures { result ≡ fields_of state.now }
{
    LinkState {
        link: octets::octet(state, 1),
        l: octets::octet(state, 2),
        dual: octets::octet(state, 3),
        com_time: octets::octet(state, 4),
        watch: Watch {
            known: octets::octet(state, 5),
            last: octets::octet(state, 6),
            rsn: octets::octet(state, 7),
            failures: octets::octet(state, 10),
        },
        latches: Latches {
            command: octets::octet(state, 8),
            communication: octets::octet(state, 9),
        },
    }
}

// The state that a record of this length and kind holds beside a sheet with this L that tolerates so many failures in a row; none where the record has
// another length or kind, or its fields are not valid.
#[tactic(auto, unfolding(octets::specs::Pick::pick))]
pub(crate) fn recorded(
    state: &[u8],
    length: usize,
    kind: u8,
    l: u8,
    tolerance: u8,
) -> Option<LinkState>
    ensures { result ≡ recorded_of state.now length kind l tolerance }
{
    if state.len() != length {
        return None;
    }
    if octets::octet(state, 0) != kind {
        return None;
    }
    let st = fields(state);
    // `then_some` in place of the test was tried: a reading took a tenth more instructions.
    if !crate::validity::valid(st, l, tolerance) {
        return None;
    }
    Some(st)
}

// The state that a record holds today.
#[tactic(auto, unfolding(crate::specs::Stored::state_of))]
pub fn read(state: &[u8], l: u8, tolerance: u8) -> Option<LinkState>
    ensures { result ≡ state_of state.now l tolerance }
{
    recorded(state, STATE_LENGTH, KIND, l, tolerance)
}

// The record of a state, written over eleven lent octets; octets of any other length stay.
#[tactic(auto, unfolding(crate::specs::Stored::stored, crate::specs::Stored::octets_of, octets::specs::Pick::pick))]
pub fn write(state: &mut [u8], st: LinkState)
    ensures { state.new ≡ stored state.old st }
{
    if state.len() != STATE_LENGTH {
        return;
    }
    // One array through a reference to all eleven octets is as fast as a store for each; `copy_from_slice` was tried and is slower.
    *state.first_chunk_mut().unwrap() = [
        KIND,
        st.link,
        st.l,
        st.dual,
        st.com_time,
        st.watch.known,
        st.watch.last,
        st.watch.rsn,
        st.latches.command,
        st.latches.communication,
        st.watch.failures,
    ];
}
