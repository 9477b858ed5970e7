// What changed between the sheets of two files, in words: a line for each difference, or one line that there is none.
use crate::changes;
use crate::faults::Explained;
use difference::whole::Refusal;
use files::Source;
use slave::answers::Answer;
use std::io::Read;
use std::rt::{Env, Files};
use words::Octets;

const FIRST: Source<'static> = Source {
    argument: 1,
    name: b"first.bin",
};

const SECOND: Source<'static> = Source {
    argument: 2,
    name: b"second.bin",
};

// Room for the list of any two sheets.
const ROOM: usize = 2400;

// A refusal: which sheet it is, number, place and words, or how long the list is.
fn print_refusal(rt: &impl Print, first: &[u8], second: &[u8], refusal: Refusal) {
    let Answer { number, place } = Answer::from(refusal);
    let _ = match refusal {
        Refusal::First(flaw) => {
            let sheet = first;
            let words = Explained { sheet, flaw };
            println!(rt; "first sheet refused: {number} at octet {place}: {words}")
        }
        Refusal::Second(flaw) => {
            let sheet = second;
            let words = Explained { sheet, flaw };
            println!(rt; "second sheet refused: {number} at octet {place}: {words}")
        }
        Refusal::TooLong(length) => {
            println!(rt;
                "refused: {number}, the list needs {}",
                Octets(u64::from(length))
            )
        }
    };
}

// The differences of two sheets that were read.
fn print_differences(rt: &impl Print, first: &[u8], second: &[u8], room: &mut [u8]) {
    match difference::whole::difference(first, second, room) {
        Err(refusal) => print_refusal(rt, first, second, refusal),
        Ok(0) => {
            let _ = println!(rt; "no difference");
        }
        // The list lies in the room, as the call says; a test is shorter than that proof.
        Ok(length) => changes::print_list(rt, first, room.get(..length as usize).unwrap_or(&[])),
    }
}

// The sheets whole, in fixed room, as the program allocates nothing: one octet more than a sheet may have, so that a longer one is refused.
fn read_both(rt: &(impl Env + Print), first: impl Read + Drop, second: impl Read + Drop) {
    let mut first_room = [0u8; 2049];
    let mut second_room = [0u8; 2049];
    let mut list = [0u8; ROOM];
    let n = FIRST.take(rt, first, &mut first_room);
    let m = SECOND.take(rt, second, &mut second_room);
    print_differences(rt, &first_room[..n], &second_room[..m], &mut list);
}

// The whole run; every missing file is named before it stops.
pub fn run<R: Files + Env + Print>(rt: &R) {
    let first = FIRST.open(rt);
    let second = SECOND.open(rt);
    let (Some(first), Some(second)) = (first, second) else {
        return;
    };
    read_both(rt, first, second);
}
