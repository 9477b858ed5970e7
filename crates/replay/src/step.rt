// One record of a trace beside our machine's reply.
ghost use Rattle.std.specs.Prelude.{◌≡◌, ◌<◌, length, IfSome};
ghost use Rattle.std.specs.Option.{unwrap_or};
ghost use Rattle.slave.specs.Wanted.{stepped, performed};
ghost use Rattle.replay.specs.Replay.{record_leaves, Stands};

use slave::checked::Checked;

// The record of a command and the reply that came back, theirs: its first octet that is not our machine's, if there is one. Our machine's reply is built in
// the lent room. The state is known to be valid and enabled, as the exchange before left it, so nothing of it is asked again.
pub fn one(
    checked: &Checked,
    state: &mut [u8],
    memory: &mut [u8],
    command: &[u8],
    theirs: &[u8],
    room: &mut [u8],
) -> Option<u8>
    requires stands { Stands state.old memory.old checked.now.device.layout }
    requires room { length room.old ≡ checked.now.device.layout.l }
    requires command { length command.now ≡ checked.now.device.layout.l }
    requires theirs { length theirs.now ≡ checked.now.device.layout.l }
    ensures leaves { performed (stepped (unwrap_or result checked.now.device.layout.l) state.new memory.new) room.new ≡ record_leaves checked.now.device.sheet.now checked.now.device.layout.l state.old memory.old room.old command.now theirs.now }
    ensures differs { IfSome result (λ octet. octet < checked.now.device.layout.l) }
{
    let st = link::stored::fields(state);
    let told = slave::exchanging::perform(checked, st, state, memory, command, theirs, room);
    let at = (told % 256) as u8;
    if at < checked.device.layout.l {
        Some(at)
    } else {
        None
    }
}
