// All records of a trace, and the refusals before them.
ghost use Rattle.std.specs.Prelude.{◌≡◌, length};
ghost use Rattle.replay.specs.Answers.{stopped};
ghost use Rattle.replay.specs.Trace.{Records, traced_of};
ghost use Rattle.replay.specs.Replay.{replayed, play_of, replay_of, Stands};

use crate::answers::Stop;
use crate::reader::Reader;
use sheet::device::Device;
use slave::answers::Refusal;
use slave::checked::Checked;

// The records of a trace of whole ones, in their order, up to the first difference.
fn play(
    checked: &Checked,
    state: &mut [u8],
    memory: &mut [u8],
    trace: &[u8],
    room: &mut [u8],
) -> Result<u32, Stop>
    requires stands { Stands state.old memory.old checked.now.device.layout }
    requires records { Records checked.now.device.layout.l trace.now }
    requires room { length room.old ≡ checked.now.device.layout.l }
    ensures { replayed (stopped result) state.new memory.new ≡ play_of checked.now.device.sheet.now checked.now.device.layout.l 0 state.old memory.old (traced_of checked.now.device.layout.l trace.now) }
{
    let mut reader = Reader::open(trace, checked.device.layout.l, 0);
    let mut k: u32 = 0;
    // The reader has the place, as document 01 asks, so no range or iterator counts it.
    while reader.at < trace.len() {
        let command = reader.command();
        let theirs = reader.reply();
        if let Some(octet) = crate::step::one(checked, state, memory, command, theirs, room) {
            return Err(Stop::Differs(64 * k + u32::from(octet)));
        }
        k += 1;
        reader = reader.moved();
    }
    Ok(k)
}

// The records in room of our own for one reply.
fn play_all(
    checked: &Checked,
    state: &mut [u8],
    memory: &mut [u8],
    trace: &[u8],
) -> Result<u32, Stop>
    requires stands { Stands state.old memory.old checked.now.device.layout }
    requires records { Records checked.now.device.layout.l trace.now }
    ensures { replayed (stopped result) state.new memory.new ≡ play_of checked.now.device.sheet.now checked.now.device.layout.l 0 state.old memory.old (traced_of checked.now.device.layout.l trace.now) }
{
    // Fixed room, as nothing is allocated.
    let mut room = [0u8; 64];
    let l = checked.device.layout.l as usize;
    play(checked, state, memory, trace, &mut room[..l])
}

// A trace of any octets beside a sheet, a state record and a memory of any octets: the refusals first, then the form of the whole trace, then the
// exchanges.
pub fn replay(sheet: &[u8], state: &mut [u8], memory: &mut [u8], trace: &[u8]) -> Result<u32, Stop>
    ensures { replayed (stopped result) state.new memory.new ≡ replay_of sheet.now state.old memory.old trace.now }
{
    let layout = sheet::walk::check(sheet)?;
    let held = link::stored::read(state, layout.l, layout.tolerance);
    let st = held.ok_or(Refusal::BadState)?;
    if memory.len() != layout.memory as usize {
        return Err(Refusal::BadMemory.into());
    }
    if st.link == link::state::DISABLED {
        return Err(Refusal::IsDisabled.into());
    }
    crate::whole::checked(trace, layout.l)?;
    let checked = Checked {
        device: Device { sheet, layout },
    };
    play_all(&checked, state, memory, trace)
}
