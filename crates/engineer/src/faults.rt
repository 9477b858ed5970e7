// A sheet's fault in words: which record, which field, and what is allowed. The verdict is the library's; the sheet is read again only to say what stands
// there.
use crate::records::{Address, Record, Records};
use sheet::kinds::Kind;
use sheet::records::{Fault, Flaw};
use std::fmt;

// A faulty sheet.
#[derive(Clone, Copy)]
pub struct Explained<'a> {
    pub sheet: &'a [u8],
    pub flaw: Flaw,
}

impl fmt::Display for Explained<'_> {
    fn fmt<W: fmt::Write>(&self, f: &mut fmt::Formatter<W>) -> fmt::Result {
        let sheet = self.sheet;
        let place = self.flaw.place as usize;
        let octet = octets::octet(sheet, place);
        match (
            self.flaw.fault,
            record_at(sheet, place),
            record_before(sheet, place),
        ) {
            (Fault::Ended, found, _) => write_ended(f, sheet, place, found),
            (Fault::Unknown, _, _) => write!(
                f,
                "kind {octet:02X} is unknown: a record begins with 00 to 07"
            ),
            (Fault::Misplaced, _, None) => write!(
                f,
                "the sheet begins with {octet:02X}, not with a link or short link, 01 or 05"
            ),
            (Fault::Misplaced, _, Some(Record::End)) => {
                write!(f, "something stands behind the end record")
            }
            (Fault::Misplaced, Some(record), Some(before)) => {
                write_late(f, record.kind(), before.kind())
            }
            (Fault::Range, Some(record), _) => write_range(f, record),
            (Fault::Disorder, Some(record), Some(before)) => write_disorder(f, record, before),
            (Fault::Excess, Some(record), _) => write_excess(f, record, place),
            (Fault::Unmapped, Some(record), _) => write_unmapped(f, sheet, record),
            // The library tells these faults of records alone that stand in the sheet.
            _ => Ok(()),
        }
    }
}

// The record at a place, if a known kind stands there; the verdict tells the place, and not the part from there on.
fn record_at(sheet: &[u8], place: usize) -> Option<Record<'_>> {
    let (first, body) = sheet.get(place..)?.split_first()?;
    Some(Record::read(Kind::try_from(*first).ok()?, body))
}

// The record in front of a place; the first has none.
fn record_before(sheet: &[u8], place: usize) -> Option<Record<'_>> {
    Records::of(sheet)
        .take_while(|(at, _)| *at < place)
        .last()
        .map(|(_, record)| record)
}

// 11: nothing where a record should be, or a part of it.
fn write_ended<W: fmt::Write>(
    f: &mut fmt::Formatter<W>,
    sheet: &[u8],
    place: usize,
    found: Option<Record>,
) -> fmt::Result {
    if 2048 < sheet.len() {
        return write!(f, "the sheet is over 2048 octets");
    }
    if sheet.len() == 0 {
        return write!(f, "the sheet is empty");
    }
    let Some(record) = found else {
        return write!(f, "no end record");
    };
    let kind = record.kind();
    let word = crate::records::word(kind);
    let size = crate::records::size(kind);
    let there = sheet.len().saturating_sub(place);
    write!(f, "{word} cut: {there} of its {size} octets")
}

// 13 behind a record: a kind where another should be.
fn write_late<W: fmt::Write>(f: &mut fmt::Formatter<W>, kind: Kind, before: Kind) -> fmt::Result {
    let rule = match kind {
        Kind::Link | Kind::ShortLink => "one of link and short link stands first, and once",
        _ if kind == before => "it stands once",
        _ => "regions come first, then parameters, ID items, tolerance, rule release",
    };
    let word = crate::records::word(kind);
    write!(f, "{word} behind {}: {rule}", crate::records::word(before))
}

// 14: a field out of range, and what it may be.
fn write_range<W: fmt::Write>(f: &mut fmt::Formatter<W>, record: Record) -> fmt::Result {
    match record {
        Record::Link { l, .. } => write!(f, "{record}: L {l}: only 8, 16, 32, 48 or 64"),
        Record::ShortLink { l, .. } => write!(f, "{record}: L {l}: only 16"),
        Record::Region { length: 0, .. } => write!(f, "{record}: length 0: at least 1"),
        Record::Region { start, length, .. } if 1 << 32 < u64::from(start) + u64::from(length) => {
            write!(f, "{record}: {length} octets: past address FFFFFFFF")
        }
        Record::Region { rights, .. } => {
            write!(
                f,
                "{record}: rights {rights:02X}: only bits 0 to 2 may be set"
            )
        }
        Record::Parameter { size, .. } => write!(f, "{record}: size {size}: only 1 to 56"),
        Record::Item { length: 1..=32, .. } => {
            write!(f, "{record}: an octet behind its length is not zero")
        }
        Record::Item { length, .. } => write!(f, "{record}: length {length}: only 1 to 32"),
        Record::Tolerance(n) => write!(f, "{record}: {n}: only 0 to 3"),
        Record::Release(n) => write!(f, "{record}: {n}: only 1 or 2"),
        Record::End => Ok(()),
    }
}

// 15: what the record before has, of the same kind, behind which this one must not go back.
fn write_disorder<W: fmt::Write>(
    f: &mut fmt::Formatter<W>,
    record: Record,
    before: Record,
) -> fmt::Result {
    match (before, before.key()) {
        (Record::Region { start, length, .. }, _) => {
            let end = Address(u64::from(start) + u64::from(length));
            write!(
                f,
                "{record}: starts before {end}, the end of the region before"
            )
        }
        (_, Some(key)) => write!(f, "{record}: does not rise after {key}"),
        (_, None) => Ok(()),
    }
}

// 16: more records of a kind, or more memory, than a sheet may have. The 33rd region stands at octet 324.
fn write_excess<W: fmt::Write>(
    f: &mut fmt::Formatter<W>,
    record: Record,
    place: usize,
) -> fmt::Result {
    match record {
        Record::Parameter { .. } => write!(f, "more than 64 parameters"),
        Record::Item { .. } => write!(f, "more than 32 ID items"),
        _ if place < 324 => write!(f, "more than 65536 octets of memory"),
        _ => write!(f, "more than 32 regions"),
    }
}

// The first address from one on that no region has. Regions stand one behind another behind the link record, in the order of their addresses, so one pass
// finds it.
fn unmapped(sheet: &[u8], address: u32) -> u64 {
    Records::of(sheet)
        .skip(1)
        .map_while(|(_, record)| match record {
            Record::Region { start, length, .. } => Some((u64::from(start), u64::from(length))),
            _ => None,
        })
        .fold(u64::from(address), |to, (start, length)| {
            if start <= to && to < start + length {
                start + length
            } else {
                to
            }
        })
}

// 17: the first octet of a parameter's span that is in no region.
fn write_unmapped<W: fmt::Write>(
    f: &mut fmt::Formatter<W>,
    sheet: &[u8],
    record: Record,
) -> fmt::Result {
    let Record::Parameter { address, .. } = record else {
        return Ok(());
    };
    let first = Address(unmapped(sheet, address));
    write!(f, "{record}: no region has {first}")
}
