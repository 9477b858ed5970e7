// Which link states are valid, as document 01 lists it.
ghost use Rattle.std.specs.Prelude.{◌≡◌};
ghost use Rattle.link.specs.Valid.{is_command_alarm, is_communication_alarm, in_range, agrees, valid_of};

use crate::state::LinkState;

#[tactic(auto, unfolding(crate::specs::Valid::is_command_alarm))]
// Which numbers may be latched: a set like `is_length` of sheet, but another, and one function that is told the set would be no plainer.
pub fn is_command_alarm(a: u8) -> bool
    ensures { result ≡ is_command_alarm a }
{
    (a == 0) | (a == 8) | (a == 9) | (a == 10) | (a == 12)
}

#[tactic(auto, unfolding(crate::specs::Valid::is_communication_alarm))]
pub fn is_communication_alarm(a: u8) -> bool
    ensures { result ≡ is_communication_alarm a }
{
    (a == 0) | (a == 12)
}

// Each field in its own range.
#[tactic(auto, unfolding(crate::specs::Valid::in_range))]
pub fn in_range(st: LinkState) -> bool
    ensures { result ≡ in_range st }
{
    (st.link <= 3)
        & (st.dual <= 1)
        & (st.watch.known <= 1)
        & (st.watch.last <= 15)
        & (st.watch.rsn <= 15)
        & is_command_alarm(st.latches.command)
        & is_communication_alarm(st.latches.communication)
}

// The fields agree with each other.
pub fn agree(st: LinkState) -> bool
    ensures { result ≡ agrees st }
{
    ((st.link < 2) | (1 <= st.com_time))
        & ((2 <= st.link) | (st.com_time == 0))
        & ((st.link == 3) | (st.dual == 0))
        & ((st.dual == 0) | (2 <= st.com_time))
        & ((st.link == 3)
            | ((st.watch.known == 0)
                & (st.watch.last == 0)
                & (st.watch.rsn == 0)
                & (st.watch.failures == 0)))
        & ((1 <= st.watch.known)
            | ((st.watch.last == 0) & (st.watch.rsn == 0) & (st.watch.failures == 0)))
        & ((1 <= st.link) | ((st.latches.command == 0) & (st.latches.communication == 0)))
}

// A state that is valid beside a sheet with this L that tolerates so many failures in a row.
#[tactic(auto, unfolding(crate::specs::Valid::valid_of))]
pub fn valid(st: LinkState, l: u8, tolerance: u8) -> bool
    ensures { result ≡ valid_of st l tolerance }
{
    (st.l == l) & (st.watch.failures <= tolerance) & in_range(st) & agree(st)
}
