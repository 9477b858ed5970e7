// The two passes over the trace, by pieces of whole records: its form, then its exchanges.
ghost use Rattle.std.specs.Prelude.{◌≤◌};

use crate::drive::Drive;
use crate::{TRACE, showing};
use replay::answers::Stop;
use std::io::Read;
use std::rt::{Env, Files};

// Room for a piece.
const ROOM: usize = 65536;

// The octets of a record: a kind, a command and a reply.
fn record_size(l: u8) -> usize
    ensures { 1 ≤ result }
{
    1 + 2 * (l as usize)
}

// The whole records among octets of a trace.
fn records(octets: u64, l: u8) -> u64 {
    octets / (1 + 2 * u64::from(l))
}

// A line on standard error for each 100,000 records, so that a long trace is seen to go on.
fn print_progress(rt: &impl Eprint, before: u64, after: u64, what: &str) {
    if before / 100000 != after / 100000 {
        let _ = eprintln!(rt; "{after} {what}");
    }
}

// A pass over the trace. Each piece, as many whole records as the room holds, is the step's, with the count of what is behind it; the step gives the count
// behind the piece, or ends the pass. No file is long enough for the count to wrap, or for the turns, which a proved loop has to count, to be used up.
fn pass<I: Read, F: FnMut(&[u8], u64) -> Option<u64>>(
    rt: &(impl Env + Print),
    trace: &mut I,
    l: u8,
    mut step: F,
) -> Option<u64>
    requires { F.IsAlwaysCallable step }
{
    // Fixed room, as the program allocates nothing.
    let mut room = [0u8; ROOM];
    let piece = &mut room[..ROOM - ROOM % record_size(l)];
    let mut count = 0;
    for _ in 0..u64::MAX {
        let got = files::read_full(trace, piece);
        if got == 0 {
            return TRACE.is_at_end(rt, trace).then_some(count);
        }
        count = step(&piece[..got], count)?;
    }
    Some(count)
}

// The form of the whole trace; how many octets it has, unless it is refused or cannot be read.
pub fn form(rt: &(impl Env + Print + Eprint), trace: &mut impl Read, l: u8) -> Option<u64> {
    let octets = pass(rt, trace, l, |piece, before| {
        if let Err(stop) = replay::whole::checked(piece, l) {
            showing::print_refusal(rt, stop, before);
            return None;
        }
        let after = before.wrapping_add(piece.len() as u64);
        print_progress(
            rt,
            records(before, l),
            records(after, l),
            "records have their form",
        );
        Some(after)
    })?;
    if octets == 0 {
        TRACE.print_line(rt, b": empty\n");
    }
    Some(octets)
}

// The record of a piece that differs, and its place there.
fn print_record(rt: &impl Print, drive: &mut Drive, piece: &[u8], l: u8, place: u32, before: u64) {
    let k = place / 64;
    let octet = (place % 64) as usize;
    let Some([_, both @ ..]) = piece.chunks_exact(record_size(l)).nth(k as usize) else {
        return;
    };
    let Some((command, reply)) = both.split_at_checked(l as usize) else {
        return;
    };
    let record = before.wrapping_add(u64::from(k));
    showing::print_difference(rt, drive, command, reply, record, octet);
}

// The exchanges of a piece, behind records that are counted. Its form was right in the first pass.
fn play_piece(
    rt: &(impl Env + Print + Eprint),
    drive: &mut Drive,
    piece: &[u8],
    l: u8,
    before: u64,
) -> Option<u64> {
    match drive.replay(piece) {
        Ok(records) => {
            let after = before.wrapping_add(u64::from(records));
            print_progress(rt, before, after, "records agree");
            Some(after)
        }
        Err(Stop::Differs(place)) => {
            print_record(rt, drive, piece, l, place, before);
            None
        }
        Err(_) => {
            TRACE.print_line(rt, b": changed while it was read\n");
            None
        }
    }
}

// The exchanges of the trace, whose file is opened once more, and what came of them. A pipe gives its octets once only, so they are counted again; a trace
// without a record agrees with anything, and that is no verdict.
pub fn play<R: Files + Env + Print + Eprint>(rt: &R, drive: &mut Drive, l: u8, octets: u64) {
    let Some(mut trace) = TRACE.open(rt) else {
        return;
    };
    let played = pass(rt, &mut trace, l, |piece, before| {
        play_piece(rt, drive, piece, l, before)
    });
    let Some(count) = played else {
        return;
    };
    if count != records(octets, l) {
        TRACE.print_line(rt, b": changed while it was read\n");
    } else if count == 0 {
        let _ = println!(rt; "nothing to replay: the trace has no record");
    } else {
        let _ = println!(rt; "all agree: {count} records");
    }
}
