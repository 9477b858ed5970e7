// The reply's body and what enters the memory: parts of reply and memory are lent on to be filled.
ghost use Rattle.std.specs.Prelude.{◌≡◌, ◌+◌, ◌-◌, ◌≤◌, length};
ghost use Rattle.octets.specs.Parts.{part, put_at};
ghost use Rattle.frame.specs.Places.{data_from, echo_from, echo_size};
ghost use Rattle.frame.specs.Body.{echoed, carried, body_of, memory_after, Fitting, Storing};

use machine::words::{Carrier, Effect};
use sheet::walk::Form;

// `n` octets of a source from `from` on.
#[tactic(auto, unfolding(octets::specs::Parts::part))]
fn part(source: &[u8], from: usize, n: usize) -> &[u8]
    requires { from + n ≤ length source.now }
    ensures told { result.now ≡ part source.now from n }
    ensures long { length result.now ≡ n }
{
    &source[from..from + n]
}

// A carrier's own fields stand in the reply again.
#[tactic(auto, using(crate::proofs::Numbers::echo_before))]
fn echo_fields(form: Form, by: Carrier, command: &[u8], reply: &mut [u8])
    requires { (data_from form by ≤ length command.now) × (data_from form by ≤ length reply.old) }
    ensures { reply.new ≡ echoed command.now (echo_from by) (echo_size form by) reply.old }
{
    let from = crate::places::echo_from(by);
    let again = part(command, from, crate::places::echo_size(form, by));
    octets::put(reply, from, again);
}

// A carrier's fields again, and its data.
fn carry(form: Form, by: Carrier, data: &[u8], command: &[u8], reply: &mut [u8])
    requires { (data_from form by ≤ length command.now) × (data_from form by + length «data».now ≤ length reply.old) }
    ensures { reply.new ≡ carried form by «data».now command.now reply.old }
{
    echo_fields(form, by, command, reply);
    octets::put(reply, crate::places::data_from(form, by), data);
}

// The connection's or an item's fields again, up to where they end.
fn echo_named(end: usize, command: &[u8], reply: &mut [u8])
    requires { (4 ≤ end) × (end ≤ length command.now) × (end ≤ length reply.old) }
    ensures { reply.new ≡ echoed command.now 4 (end - 4) reply.old }
{
    octets::put(reply, 4, part(command, 4, end - 4));
}

// An ID item's fields again, and its octets.
fn identify(end: usize, item: &[u8], command: &[u8], reply: &mut [u8])
    requires { (4 ≤ end) × (end ≤ length command.now) × (end + length item.now ≤ length reply.old) }
    ensures { reply.new ≡ put_at (echoed command.now 4 (end - 4) reply.old) end item.now }
{
    echo_named(end, command, reply);
    octets::put(reply, end, item);
}

// The body over a reply that has its head. Memory, command and reply are three lent lists, as the call has them: no two are one thing.
#[tactic(auto, using(crate::proofs::Numbers::end_within, crate::proofs::Numbers::fields_behind), unfolding(crate::specs::Body::body_of, crate::specs::Body::Fitting))]
pub fn fill_body(
    form: Form,
    effect: Effect,
    sheet: &[u8],
    memory: &[u8],
    command: &[u8],
    reply: &mut [u8],
)
    requires { (length command.now ≡ length reply.old) × Fitting form effect (length reply.old) (length memory.now) (length sheet.now) }
    ensures { reply.new ≡ body_of form effect sheet.now memory.now command.now reply.old }
{
    match effect {
        Effect::Quiet => {}
        Effect::Reads(by, place, n) => {
            let data = part(memory, place as usize, n as usize);
            carry(form, by, data, command, reply);
        }
        Effect::Writes(by, _, n) => {
            let data = part(command, crate::places::data_from(form, by), n as usize);
            carry(form, by, data, command, reply);
        }
        Effect::Identifies(at, n) => {
            let item = part(sheet, at as usize, n as usize);
            identify(crate::places::fields_end(form), item, command, reply);
        }
        Effect::Alarms(old, fault) => {
            octets::put(reply, crate::places::alarms_at(form), &[old, fault]);
        }
        Effect::Connects => echo_named(crate::places::fields_end(form), command, reply),
    }
}

// What an effect leaves in the memory: the part at a write's place is lent to be filled with the command's octets.
#[tactic(auto, using(crate::proofs::Numbers::end_within), unfolding(crate::specs::Body::memory_after, crate::specs::Body::Storing))]
pub fn store(form: Form, effect: Effect, command: &[u8], memory: &mut [u8])
    requires { Storing form effect (length command.now) (length memory.old) }
    ensures { memory.new ≡ memory_after form effect command.now memory.old }
{
    if let Effect::Writes(by, place, n) = effect {
        let data = part(command, crate::places::data_from(form, by), n as usize);
        octets::put(memory, place as usize, data);
    }
}
