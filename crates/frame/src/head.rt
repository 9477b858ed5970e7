// The reply's head.
ghost use Rattle.std.specs.Prelude.{◌≡◌, [], ◌∷◌, ◌/◌, ◌%◌, ◌≤◌, length, replicate};
ghost use Rattle.octets.specs.Parts.{put_at};
ghost use Rattle.frame.specs.Head.{rwdt_of, missed_bit, status_of, begun_of};
ghost use Rattle.frame.specs.Places.{Sized};

use link::state::LinkState;
use sheet::walk::Form;

#[tactic(auto, unfolding(octets::specs::Pick::pick, crate::specs::Head::rwdt_of))]
fn rwdt(wdt: u8, next: LinkState) -> u8
    ensures { result ≡ rwdt_of wdt next }
{
    if next.link == link::state::SYNC_CONNECTED {
        return 16 * (next.watch.rsn % 16) + wdt % 16;
    }
    0
}

// Status bit 1: a failure of the watchdog was tolerated. Every other exchange leaves the count 0.
#[tactic(auto, unfolding(octets::specs::Pick::pick, crate::specs::Head::missed_bit))]
fn missed_bit(next: LinkState) -> u16
    ensures told { result ≡ missed_bit next }
    ensures small { result ≤ 2 }
{
    let failures = next.watch.failures;
    if failures == 0 {
        return 0;
    }
    2
}

#[tactic(auto, unfolding(octets::specs::Pick::pick, crate::specs::Head::status_of))]
fn status(identity: u8, alarm: u8, next: LinkState) -> u16
    ensures { result ≡ status_of identity alarm next }
{
    let echo = 64 * ((identity % 4) as u16);
    let high = 256 * ((alarm % 16) as u16) + 4096 * ((next.latches.communication % 16) as u16);
    let missed = missed_bit(next);
    if (next.latches.command == 0) & (next.latches.communication == 0) {
        return 0 + missed + 4 + echo + high;
    }
    1 + missed + 4 + echo + high
}

// Four octets over a reply of zeros: no old octet stays. They are stored one by one, since a put is a loop.
#[tactic(auto, unfolding(octets::specs::Parts::put_at))]
fn four(reply: &mut [u8], code: u8, second: u8, word: u16)
    requires { 4 ≤ length reply.old }
    ensures { reply.new ≡ put_at (replicate (length reply.old) 0) 0 (code ∷ second ∷ word % 256 ∷ word / 256 ∷ []) }
{
    let [low, high] = word.to_le_bytes();
    octets::fill(reply, 0);
    reply[0] = code;
    reply[1] = second;
    reply[2] = low;
    reply[3] = high;
}

// The head and RWDT over a reply of zeros. Code, WDT and identity come one by one, as `begun_of` has them.
#[tactic(auto, using(crate::proofs::Numbers::sized_long), unfolding(crate::specs::Head::head_of, crate::specs::Head::begun_of, crate::specs::Places::Sized))]
pub fn head(
    form: Form,
    reply: &mut [u8],
    code: u8,
    wdt: u8,
    identity: u8,
    alarm: u8,
    next: LinkState,
)
    requires { Sized form (length reply.old) }
    ensures { reply.new ≡ begun_of form (length reply.old) code wdt identity alarm next }
{
    match form {
        Form::Enhanced => four(reply, code, rwdt(wdt, next), status(identity, alarm, next)),
        Form::Short => {
            four(reply, code, alarm, status(identity, 0, next));
            reply[15] = rwdt(wdt, next);
        }
    }
}
