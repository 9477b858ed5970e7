// A refusal; and a difference: the record, its command, why ours is refused or not executed if it is, and the two replies with a mark below the first octet
// in which they differ.
use crate::drive::Drive;
use hexline::Hex;
use replay::answers::Stop;
use slave::answers::{Answer, Refusal};

// A refusal's line, by its number, and its place where it is one of the sheet or of the trace, which counts on from so many octets.
pub fn print_refusal(rt: &impl Print, stop: Stop, before: u64) {
    let Answer { number, place } = Answer::from(stop);
    let _ = match stop {
        Stop::Refused(Refusal::Sheet(_)) => {
            println!(rt; "refused: {number}, at octet {place} of the sheet")
        }
        Stop::Refused(_) => println!(rt; "refused: {number}"),
        Stop::Malformed(..) | Stop::Differs(_) | Stop::TooLong => {
            let at = before.wrapping_add(u64::from(place));
            println!(rt; "refused: {number}, at octet {at} of the trace")
        }
    };
}

// A record of the trace, counted from 0 as the library counts, and the first octet in which our reply differs. Our reply is made once more in room of our
// own: state and memory stand as before the record, and nothing uses them afterwards; what the watchdog asks is seen first, since the exchange changes it. The
// sheet was found valid before; asked here once more its layout need not be handed down through every pass.
pub fn print_difference(
    rt: &impl Print,
    drive: &mut Drive,
    command: &[u8],
    reply: &[u8],
    record: u64,
    octet: usize,
) {
    let _ = println!(rt; "record {record} differs at octet {octet}");
    let Ok(layout) = sheet::walk::check(drive.sheet) else {
        return;
    };
    let form = layout.form;
    words::print_command(rt, form, command);
    // Fixed room, as the program allocates nothing.
    let mut room = [0u8; 64];
    let Some(ours) = room.get_mut(..reply.len()) else {
        return;
    };
    words::watchdog::print_failed(rt, form, drive.state, command, layout.tolerance);
    if let Ok(place) = drive.exchange(command, ours) {
        words::refused::print_refused(rt, form, command, ours, place);
    }
    let _ = println!(rt; "ours:  {}", Hex(ours));
    let _ = println!(rt; "trace: {}", Hex(reply));
    let _ = println!(rt; "       {:1$}^^", "", 2 * (octet % 64));
}
