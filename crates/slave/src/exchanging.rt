// One exchange: every refusal before anything is written, then the outcome into reply, memory and state.
ghost use Rattle.std.specs.Prelude.{◌≡◌, ◌≤◌, ◌/◌, ◌%◌, length};
ghost use Rattle.frame.specs.Body.{reply_of};
ghost use Rattle.slave.specs.Answers.{told, answered, answered_at};
ghost use Rattle.slave.specs.Exchange.{left, outcome_for, refusal_of, exchanged, exchange_of, Lent, Ready};
ghost use Rattle.slave.specs.Wanted.{stepped, performed, came, came_of};

use crate::answers::Refusal;
use crate::checked::Checked;
use link::state::LinkState;
use machine::words::Outcome;
use sheet::device::Device;
use sheet::walk::Layout;

// The first refusal behind the sheet's and the state's, by lengths and link.
fn refusal(
    layout: Layout,
    st: LinkState,
    memory: usize,
    command: usize,
    reply: usize,
) -> Result<(), Refusal>
    ensures { answered result ≡ told (refusal_of layout st memory command reply) 0 }
{
    if memory != layout.memory as usize {
        return Err(Refusal::BadMemory);
    }
    if command != layout.l as usize {
        return Err(Refusal::BadCommand);
    }
    if reply != layout.l as usize {
        return Err(Refusal::BadReply);
    }
    if st.link == link::state::DISABLED {
        return Err(Refusal::IsDisabled);
    }
    Ok(())
}

// The whole reply to a command, built over lent octets, and what the command comes to; memory and state stay.
fn build(
    checked: &Checked,
    st: LinkState,
    memory: &[u8],
    command: &[u8],
    reply: &mut [u8],
) -> Outcome
    requires { Lent memory.now command.now reply.old checked.now.device.layout }
    ensures outcome { result ≡ outcome_for checked.now.device.sheet.now checked.now.device.layout st command.now }
    ensures reply { reply.new ≡ reply_of checked.now.device.layout.form checked.now.device.sheet.now memory.now command.now result }
{
    let sheet = checked.device.sheet;
    let layout = checked.device.layout;
    let form = layout.form;
    let c = frame::fields::command_of(form, command);
    let stray = frame::unnamed::stray(form, layout.release, command);
    let outcome = machine::outcome::outcome(&checked.device, st, c, stray);
    let effect = outcome.effect;
    let next = outcome.next;
    frame::head::head(form, reply, c.code, c.wdt, c.identity, outcome.alarm, next);
    frame::body::fill_body(form, effect, sheet, memory, command, reply);
    outcome
}

// The outcome of a command: the whole reply, and, where it begins with what is wanted of it, memory and state. An exchange wants nothing of it, a replay
// the trace's reply. Told are the first octet at which the reply is not what is wanted, and 256 times the place of what is wrong in the command: one number,
// since a struct goes through memory. State and memory are lent apart, as hosts lend them: each contract tells what each comes to.
pub fn perform(
    checked: &Checked,
    st: LinkState,
    state: &mut [u8],
    memory: &mut [u8],
    command: &[u8],
    wanted: &[u8],
    reply: &mut [u8],
) -> u16
    requires ready { Ready state.old memory.old command.now reply.old checked.now.device.layout st }
    requires wanted { length wanted.now ≤ checked.now.device.layout.l }
    ensures { came (result / 256) (performed (stepped (result % 256) state.new memory.new) reply.new) ≡ came_of wanted.now state.old memory.old (exchanged checked.now.device.sheet.now checked.now.device.layout st memory.old command.now) }
{
    let outcome = build(checked, st, memory, command, reply);
    let place = frame::places::place_of(outcome.field);
    let at = crate::wanted::differs(reply, wanted);
    let told = at as u16 + 256 * (place as u16);
    if (at as usize) < wanted.len() {
        return told;
    }
    let effect = outcome.effect;
    let next = outcome.next;
    let form = checked.device.layout.form;
    frame::body::store(form, effect, command, memory);
    link::stored::write(state, next);
    told
}

// One exchange on lent octets of any lengths and contents; told is the place of what is wrong in a refused command.
pub fn exchange(
    sheet: &[u8],
    state: &mut [u8],
    memory: &mut [u8],
    command: &[u8],
    reply: &mut [u8],
) -> Result<u32, Refusal>
    ensures { left (answered_at result) state.new memory.new reply.new ≡ exchange_of sheet.now state.old memory.old command.now reply.old }
{
    let layout = sheet::walk::check(sheet)?;
    let held = link::stored::read(state, layout.l, layout.tolerance);
    let st = held.ok_or(Refusal::BadState)?;
    refusal(layout, st, memory.len(), command.len(), reply.len())?;
    let checked = Checked {
        device: Device { sheet, layout },
    };
    let told = perform(&checked, st, state, memory, command, b"", reply);
    Ok(u32::from(told / 256))
}
