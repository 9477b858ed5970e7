// A whole sheet in words: a line for each record with its place, the gaps between regions, and the memory places of each region. A faulty sheet is
// shown up to its fault, with the fault in words at its place.
use crate::faults::Explained;
use crate::fields::{Body, Content};
use crate::records::{Record, Records};
use files::Source;
use sheet::walk::Layout;
use std::fmt;
use std::rt::{Env, Files};
use words::Octets;

const SHEET: Source<'static> = Source {
    argument: 1,
    name: b"sheet.bin",
};

// What the regions that were passed have: octets of memory, and one past the last address of the last of them. What is shown was found valid, so no sum wraps.
#[derive(Clone, Copy)]
struct Passed {
    memory: u64,
    end: Option<u64>,
}

// The memory places of a region: one number, or two.
#[derive(Clone, Copy)]
struct Places {
    from: u64,
    length: u32,
}

impl fmt::Display for Places {
    fn fmt<W: fmt::Write>(&self, f: &mut fmt::Formatter<W>) -> fmt::Result {
        let from = self.from;
        match self.length {
            0 | 1 => write!(f, "{from}"),
            length => write!(f, "{from} to {}", from.wrapping_add(u64::from(length - 1))),
        }
    }
}

// A number of things, by the word for one: the number itself is printed.
#[derive(Clone, Copy)]
struct Number(u8, &'static str);

impl fmt::Display for Number {
    fn fmt<W: fmt::Write>(&self, f: &mut fmt::Formatter<W>) -> fmt::Result {
        let Number(n, word) = *self;
        match n {
            1 => write!(f, "1 {word}"),
            _ => write!(f, "{n} {word}s"),
        }
    }
}

// The addresses that no region has, between the region before and this one.
fn print_gap(rt: &impl Print, end: u64, start: u64) {
    if start <= end {
        return;
    }
    let last = start - 1;
    let _ = if end < last {
        println!(rt; "      gap {end:08X} to {last:08X}")
    } else {
        println!(rt; "      gap {end:08X}")
    };
}

// A record's line, with its place in four columns, and what is said of it here alone behind its fields.
fn print_line(rt: &impl Print, place: usize, record: Record, memory: u64) {
    let body = Body(record);
    let _ = match record {
        Record::End => println!(rt; "{place:>4}  {record}"),
        Record::Region { length, .. } => {
            let places = Places {
                from: memory,
                length,
            };
            println!(rt; "{place:>4}  {record}: {body}; memory {places}")
        }
        Record::Item { content, .. } => {
            println!(rt; "{place:>4}  {record}: {body}, {}", Content(content))
        }
        Record::Tolerance(1) => println!(rt; "{place:>4}  {record}: {body} lost cycle in a row"),
        Record::Tolerance(_) => println!(rt; "{place:>4}  {record}: {body} lost cycles in a row"),
        _ => println!(rt; "{place:>4}  {record}: {body}"),
    };
}

// The records in front of a place.
fn print_records(rt: &impl Print, sheet: &[u8], to: usize) {
    let mut so = Passed {
        memory: 0,
        end: None,
    };
    for (place, record) in Records::of(sheet).take_while(|(place, _)| *place < to) {
        if let Record::Region { start, .. } = record
            && let Some(end) = so.end
        {
            print_gap(rt, end, u64::from(start));
        }
        print_line(rt, place, record, so.memory);
        if let Record::Region { start, length, .. } = record {
            so = Passed {
                memory: so.memory.wrapping_add(u64::from(length)),
                end: Some(u64::from(start) + u64::from(length)),
            };
        }
    }
}

// What a valid sheet has.
fn print_valid(rt: &impl Print, layout: Layout) {
    let _ = println!(rt;
        "valid: {} of memory, {}, {}, {}",
        Octets(u64::from(layout.memory)),
        Number(layout.regions, "region"),
        Number(layout.parameters, "parameter"),
        Number(layout.items, "ID item")
    );
}

// All lines of a sheet.
fn print_sheet(rt: &impl Print, sheet: &[u8]) {
    match sheet::walk::check(sheet) {
        Ok(layout) => {
            print_records(rt, sheet, sheet.len());
            print_valid(rt, layout);
        }
        Err(flaw) => {
            let place = flaw.place;
            print_records(rt, sheet, place as usize);
            let words = Explained { sheet, flaw };
            let _ = println!(rt; "{place:>4}  fault {}: {words}", flaw.fault.number());
        }
    }
}

// The whole run, on the sheet of a file; there is room for one octet more than a sheet may have, so that a longer one is refused. That it is empty or
// too long its fault says.
pub fn run<R: Files + Env + Print>(rt: &R) {
    let Some(file) = SHEET.open(rt) else {
        return;
    };
    // Fixed room, as the program allocates nothing.
    let mut room = [0u8; 2049];
    let n = SHEET.take(rt, file, &mut room);
    print_sheet(rt, &room[..n]);
}
