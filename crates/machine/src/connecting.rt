// The data checks of CONNECT, which needs no sheet but its layout.
ghost use Rattle.std.specs.Prelude.{◌≡◌};
ghost use Rattle.machine.specs.Connecting.{com_mod_fits, com_time_fits, profile_fits, connect_of};

use crate::words::{Command, Done, Effect, Field, Refused};
use link::state::LinkState;
use sheet::walk::Layout;

#[tactic(auto, unfolding(crate::specs::Connecting::com_mod_fits))]
fn com_mod_fits(m: u8) -> bool
    ensures { result ≡ com_mod_fits m }
{
    (m % 2 == 0) & (m / 16 == 0) & (m / 4 % 4 <= 1) & ((m / 4 % 4 == 0) | (m / 2 % 2 == 1))
}

#[tactic(auto, unfolding(crate::specs::Connecting::com_time_fits))]
fn com_time_fits(m: u8, time: u8) -> bool
    ensures { result ≡ com_time_fits m time }
{
    (1 <= time) & ((m / 4 % 4 == 0) | (2 <= time))
}

// A type without a profile has none that is wrong.
#[tactic(auto, unfolding(crate::specs::Connecting::profile_fits))]
fn profile_fits(layout: Layout, profile: u8) -> bool
    ensures { result ≡ profile_fits layout profile }
{
    let form = layout.form;
    !crate::codes::is_full(form) | (profile == layout.profile)
}

#[tactic(auto, using(crate::proofs::Picks::picks), unfolding(crate::specs::Connecting::connect_of))]
pub fn connect(layout: Layout, st: LinkState, c: Command) -> Result<Done, Refused>
    ensures { result ≡ connect_of layout st c }
{
    if c.version != layout.version {
        return Err(Refused::out_of_range(Field::Version));
    }
    if !com_mod_fits(c.com_mod) {
        return Err(Refused::out_of_range(Field::ComMod));
    }
    if !com_time_fits(c.com_mod, c.com_time) {
        return Err(Refused::out_of_range(Field::ComTime));
    }
    if !profile_fits(layout, c.profile) {
        return Err(Refused::out_of_range(Field::Profile));
    }
    let transfer = c.com_mod / 4 % 4;
    let link = if c.com_mod / 2 % 2 == 1 {
        link::state::SYNC_CONNECTED
    } else {
        link::state::ASYNC_CONNECTED
    };
    Ok(Done {
        effect: Effect::Connects,
        next: st.connected(link, transfer, c.com_time),
    })
}
