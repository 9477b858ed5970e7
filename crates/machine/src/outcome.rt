// One exchange around checks 2 to 5: check 1, the latches and the watchdog.
ghost use Rattle.std.specs.Prelude.{◌≡◌};
ghost use Rattle.machine.specs.Outcomes.{counting, finished, missed_of, outcome_of};

use crate::words::{Command, Done, Effect, Field, Outcome, Refused};
use link::state::LinkState;
use sheet::device::Device;

// An exchange that begins and ends in SyncConnected counts.
#[tactic(auto, using(crate::proofs::Picks::picks), unfolding(crate::specs::Outcomes::counting))]
fn count(before: LinkState, st: LinkState, mn: u8) -> LinkState
    ensures { result ≡ counting before st mn }
{
    if (before.link == link::state::SYNC_CONNECTED) & (st.link == link::state::SYNC_CONNECTED) {
        return st.counted(mn);
    }
    st
}

// A judgement with its latch and its count.
#[tactic(auto, unfolding(crate::specs::Outcomes::finished))]
fn finish(st: LinkState, c: Command, judgement: Result<Done, Refused>) -> Outcome
    ensures { result ≡ finished st c judgement }
{
    let mn = c.wdt % 16;
    match judgement {
        Err(refused) => {
            let alarm = refused.alarm.number();
            Outcome {
                alarm,
                field: refused.field,
                effect: Effect::Quiet,
                next: count(st, st.latched(alarm), mn),
            }
        }
        Ok(done) => Outcome {
            alarm: 0,
            field: Field::Whole,
            effect: done.effect,
            next: count(st, done.next, mn),
        },
    }
}

// The state behind a failed check 1: one failure more is counted where the sheet tolerates it, else the link is left.
#[tactic(auto, using(crate::proofs::Picks::picks), unfolding(crate::specs::Outcomes::missed_of))]
fn missed(tolerance: u8, st: LinkState, mn: u8) -> LinkState
    ensures { result ≡ missed_of tolerance st mn }
{
    let failures = st.watch.failures;
    if failures < tolerance {
        return st.tolerated(mn);
    }
    st.lost()
}

// What an exchange comes to. `stray` is the first octet of the command that should be zero and is not, 0 where there is none: octet 0 is the code and never
// stray, so an Option would add a case that cannot be.
#[tactic(auto, using(crate::proofs::Picks::picks), unfolding(crate::specs::Outcomes::outcome_of))]
pub fn outcome(device: &Device, st: LinkState, c: Command, stray: u8) -> Outcome
    ensures { result ≡ outcome_of device.now.sheet.now device.now.layout st c stray }
{
    let watch = st.watch;
    if (st.link == link::state::SYNC_CONNECTED) & !watch.follows(c.wdt) {
        return Outcome {
            alarm: 0,
            field: Field::Whole,
            effect: Effect::Quiet,
            next: missed(device.layout.tolerance, st, c.wdt % 16),
        };
    }
    finish(st, c, crate::judging::judge(device, st, c, stray))
}
