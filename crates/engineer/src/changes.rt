// What a list of differences says, a line for each entry: a record that is gone, new or changed. The list has a record's key or its new body alone, so
// the old values are read out of the first sheet.
ghost use Rattle.std.specs.Prelude.{length};
ghost use Rattle.std.specs.Iterator.{at_most};

use crate::fields::{Body, Content, Rights};
use crate::records::{Record, Records};
use sheet::kinds::Kind;
use std::fmt;

// What became of a record, by the high half of an entry's first octet; the low half is the record's kind.
#[derive(Clone, Copy, PartialEq, Eq)]
enum Fate {
    Gone,
    New,
    Changed,
}

// A half octet that begins no entry.
#[derive(Clone, Copy, PartialEq, Eq)]
struct UnknownFate(u8);

impl TryFrom<u8> for Fate {
    type Error = UnknownFate;

    fn try_from(half: u8) -> Result<Fate, UnknownFate> {
        match half {
            4 => Ok(Fate::Gone),
            5 => Ok(Fate::New),
            6 => Ok(Fate::Changed),
            _ => Err(UnknownFate(half)),
        }
    }
}

// An entry: of a record that is gone the key alone is there, and of one that changed which fields did, by their bits.
#[derive(Clone, Copy)]
enum Entry<'a> {
    Gone(Record<'a>),
    New(Record<'a>),
    Changed(u8, Record<'a>),
}

// The entries of a list, one by one.
#[derive(Clone, Copy)]
struct Entries<'a>(&'a [u8]);

impl<'a> Iterator for Entries<'a> {
    type Item = Entry<'a>;

    ghost remaining = { λ s. at_most (length s.0.now) };

    fn next(&mut self) -> Option<Entry<'a>> {
        let (first, rest) = self.0.split_first()?;
        let kind = Kind::try_from(first % 16).ok()?;
        let body = crate::records::size(kind) - 1;
        match Fate::try_from(first / 16).ok()? {
            Fate::Gone => {
                self.0 = rest.get(difference::records::key_width(kind as u8)..)?;
                Some(Entry::Gone(Record::read(kind, rest)))
            }
            Fate::New => {
                self.0 = rest.get(body..)?;
                Some(Entry::New(Record::read(kind, rest)))
            }
            Fate::Changed => {
                let (bits, rest) = rest.split_first()?;
                self.0 = rest.get(body..)?;
                Some(Entry::Changed(*bits, Record::read(kind, rest)))
            }
        }
    }
}

// A field's value as it is shown.
#[derive(Clone, Copy)]
enum Value<'a> {
    Number(u32),
    Octet(u8),
    Address(u32),
    Rights(u8),
    Content(&'a [u8]),
}

impl fmt::Display for Value<'_> {
    fn fmt<W: fmt::Write>(&self, f: &mut fmt::Formatter<W>) -> fmt::Result {
        match *self {
            Value::Number(n) => write!(f, "{n}"),
            Value::Octet(octet) => write!(f, "{octet:02X}"),
            Value::Address(address) => write!(f, "{address:08X}"),
            Value::Rights(rights) => write!(f, "{}", Rights(rights)),
            Value::Content(content) => write!(f, "{}", Content(content)),
        }
    }
}

// A field of a record, counted from 0 in its body: its name and its value. A key does not change.
fn field(record: Record<'_>, i: u8) -> (&'static str, Value<'_>) {
    match (record, i) {
        (Record::Link { l, .. } | Record::ShortLink { l, .. }, 0) => {
            ("L ", Value::Number(u32::from(l)))
        }
        (Record::Link { version, .. } | Record::ShortLink { version, .. }, 1) => {
            ("version ", Value::Octet(version))
        }
        (Record::Link { profile, .. } | Record::ShortLink { profile, .. }, _) => {
            ("profile ", Value::Octet(profile))
        }
        (Record::Region { length, .. }, 1) => ("length ", Value::Number(length)),
        (Record::Region { rights, .. }, _) => ("rights ", Value::Rights(rights)),
        (Record::Parameter { address, .. }, 1) => ("address ", Value::Address(address)),
        (Record::Parameter { size, .. }, _) => ("size ", Value::Number(u32::from(size))),
        (Record::Item { length, .. }, 1) => ("length ", Value::Number(u32::from(length))),
        (Record::Item { content, .. }, _) => ("octets ", Value::Content(content)),
        (Record::Tolerance(n) | Record::Release(n), _) => ("", Value::Number(u32::from(n))),
        (Record::End, _) => ("", Value::Number(0)),
    }
}

// A record that changed, as it was and as it is, and the bits of its changed fields.
#[derive(Clone, Copy)]
struct Changed<'a> {
    bits: u8,
    old: Record<'a>,
    new: Record<'a>,
}

impl fmt::Display for Changed<'_> {
    fn fmt<W: fmt::Write>(&self, f: &mut fmt::Formatter<W>) -> fmt::Result {
        let mut joint = ": ";
        for i in 0..3 {
            if (self.bits >> i) % 2 == 1 {
                let (name, old) = field(self.old, i);
                let (_, new) = field(self.new, i);
                write!(f, "{joint}{name}{old} -> {new}")?;
                joint = ", ";
            }
        }
        Ok(())
    }
}

// The record of the first sheet that has another's kind and key.
fn find<'a>(first: &'a [u8], record: Record) -> Option<Record<'a>> {
    Records::of(first).map(|(_, old)| old).find(|old| old.kind() == record.kind()
        && old.key() == record.key())
}

// All entries of a list.
pub fn print_list(rt: &impl Print, first: &[u8], list: &[u8]) {
    for entry in Entries(list) {
        let _ = match entry {
            Entry::Gone(record) => println!(rt; "{record}: gone"),
            Entry::New(record) => println!(rt; "{record}: new, {}", Body(record)),
            Entry::Changed(bits, new) => match find(first, new) {
                Some(old) => println!(rt; "{new}{}", Changed { bits, old, new }),
                // The first sheet has the record, as the list says.
                None => println!(rt; "{new}"),
            },
        };
    }
}
