// The fitter's program: a replay of trace.bin on the sheet, the state and the memory of files, told in plain lines. The program allocates nothing, so
// the trace goes by in pieces that end between records.
#![tactic(auto)]

mod drive; // drive.rt: a drive as its files have it
mod pieces; // pieces.rt: the two passes over the trace
mod showing; // showing.rt: a refusal, and a difference octet by octet

use drive::Drive;
use files::Source;
use replay::answers::Stop;
use std::io::Read;
use std::rt::{Env, Files};

const SHEET: Source<'static> = Source {
    argument: 1,
    name: b"sheet.bin",
};

const STATE: Source<'static> = Source {
    argument: 2,
    name: b"state.bin",
};

const MEMORY: Source<'static> = Source {
    argument: 3,
    name: b"memory.bin",
};

const TRACE: Source<'static> = Source {
    argument: 4,
    name: b"trace.bin",
};

// The replay behind the files: the refusals that need no trace, then its form, then its exchanges.
fn replayed<R: Files + Env + Print + Eprint>(rt: &R, drive: &mut Drive, trace: &mut impl Read) {
    if let Err(stop) = drive.replay(b"") {
        showing::print_refusal(rt, stop, 0);
        return;
    }
    let Ok(layout) = sheet::walk::check(drive.sheet) else {
        return;
    };
    if let Some(octets) = pieces::form(rt, trace, layout.l) {
        pieces::play(rt, drive, layout.l, octets);
    }
}

// The replay from a state record of release 1, which is turned first; a line says so, or why it is refused.
fn turned<R: Files + Env + Print + Eprint>(
    rt: &R,
    sheet: &[u8],
    old: &[u8],
    memory: &mut [u8],
    trace: &mut impl Read,
) {
    let mut state = [0u8; 11];
    if let Err(refusal) = slave::turning::turn(sheet, old, &mut state) {
        showing::print_refusal(rt, Stop::Refused(refusal), 0);
        return;
    }
    STATE.print_line(rt, b": a state record of release 1, turned\n");
    let mut drive = Drive {
        sheet,
        state: &mut state,
        memory,
    };
    replayed(rt, &mut drive, trace);
}

// The files whole, in room for one octet more than the longest that can be right, so that a longer one is refused as the longest would not be. Ten
// octets of state are release 1's.
fn read_all<R: Files + Env + Print + Eprint>(
    rt: &R,
    sheet: R::File,
    state: R::File,
    memory: R::File,
    trace: &mut R::File,
) {
    // Fixed room, as the program allocates nothing.
    let mut sheet_room = [0u8; 2049];
    let mut state_room = [0u8; 12];
    let mut memory_room = [0u8; 65537];
    let a = SHEET.read(rt, sheet, &mut sheet_room);
    let b = STATE.read(rt, state, &mut state_room);
    let c = MEMORY.read(rt, memory, &mut memory_room);
    let sheet = &sheet_room[..a];
    let state = &mut state_room[..b];
    let memory = &mut memory_room[..c];
    if b == 10 {
        turned(rt, sheet, state, memory, trace);
        return;
    }
    let mut drive = Drive {
        sheet,
        state,
        memory,
    };
    replayed(rt, &mut drive, trace);
}

// The whole run; every missing file is named before it stops.
pub fn run<R: Files + Env + Print + Eprint>(rt: &R) {
    let sheet = SHEET.open(rt);
    let state = STATE.open(rt);
    let memory = MEMORY.open(rt);
    let trace = TRACE.open(rt);
    let (Some(sheet), Some(state), Some(memory), Some(mut trace)) = (sheet, state, memory, trace)
    else {
        return;
    };
    read_all(rt, sheet, state, memory, &mut trace);
}
