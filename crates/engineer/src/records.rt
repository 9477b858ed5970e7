// Records as they stand in a sheet, or in a list of differences: their fields, keys and names. A body is the part that begins behind the kind octet; octets
// past its end count as 0, so that a cut one can be named too.
ghost use Rattle.std.specs.Prelude.{◌≤◌, length};
ghost use Rattle.std.specs.Iterator.{at_most};

use sheet::kinds::Kind;
use std::fmt;

// A record by what it says.
#[derive(Clone, Copy)]
pub enum Record<'a> {
    End,
    Link {
        l: u8,
        version: u8,
        profile: u8,
    },
    Region {
        start: u32,
        length: u32,
        rights: u8,
    },
    Parameter {
        number: u16,
        address: u32,
        size: u8,
    },
    Item {
        code: u8,
        length: u8,
        content: &'a [u8],
    },
    ShortLink {
        l: u8,
        version: u8,
        profile: u8,
    },
    Tolerance(u8),
    Release(u8),
}

// What tells a record from the others of its kind.
#[derive(Clone, Copy, PartialEq, Eq)]
pub enum Key {
    Start(u32),
    Number(u16),
    Code(u8),
}

// A key as it stands in a command: addresses and ID codes are hex.
impl fmt::Display for Key {
    fn fmt<W: fmt::Write>(&self, f: &mut fmt::Formatter<W>) -> fmt::Result {
        match self {
            Key::Start(start) => write!(f, "{start:08X}"),
            Key::Number(number) => write!(f, "{number}"),
            Key::Code(code) => write!(f, "{code:X}"),
        }
    }
}

// An address in eight digits, or one past the last, of which the low eight digits are shown.
#[derive(Clone, Copy)]
pub struct Address(pub u64);

impl fmt::Display for Address {
    fn fmt<W: fmt::Write>(&self, f: &mut fmt::Formatter<W>) -> fmt::Result {
        write!(f, "{:08X}", self.0 % (1 << 32))
    }
}

// A kind's name.
pub fn word(kind: Kind) -> &'static str {
    match kind {
        Kind::End => "end",
        Kind::Link => "link",
        Kind::Region => "region",
        Kind::Parameter => "parameter",
        Kind::Item => "ID item",
        Kind::ShortLink => "short link",
        Kind::Tolerance => "tolerance",
        Kind::Release => "rule release",
    }
}

// The octets of a record, its kind octet among them; so many that every walk goes on.
pub fn size(kind: Kind) -> usize
    ensures { (1 ≤ result) × (result ≤ 35) }
{
    difference::records::size(kind as u8)
}

impl<'a> Record<'a> {
    // A record of a kind out of its body.
    pub fn read(kind: Kind, body: &'a [u8]) -> Record<'a> {
        let first = octets::octet(body, 0);
        let second = octets::octet(body, 1);
        let third = octets::octet(body, 2);
        match kind {
            Kind::End => Record::End,
            Kind::Link => Record::Link {
                l: first,
                version: second,
                profile: third,
            },
            Kind::Region => Record::Region {
                start: octets::le4_at(body, 0),
                length: octets::le4_at(body, 4),
                rights: octets::octet(body, 8),
            },
            Kind::Parameter => Record::Parameter {
                number: octets::le2(first, second),
                address: octets::le4_at(body, 2),
                size: octets::octet(body, 6),
            },
            Kind::Item => Record::Item {
                code: first,
                length: second,
                content: body.get(2..2 + second as usize).unwrap_or(&[]),
            },
            Kind::ShortLink => Record::ShortLink {
                l: first,
                version: second,
                profile: third,
            },
            Kind::Tolerance => Record::Tolerance(first),
            Kind::Release => Record::Release(first),
        }
    }

    pub fn kind(self) -> Kind {
        match self {
            Record::End => Kind::End,
            Record::Link { .. } => Kind::Link,
            Record::Region { .. } => Kind::Region,
            Record::Parameter { .. } => Kind::Parameter,
            Record::Item { .. } => Kind::Item,
            Record::ShortLink { .. } => Kind::ShortLink,
            Record::Tolerance(_) => Kind::Tolerance,
            Record::Release(_) => Kind::Release,
        }
    }

    // Its key; a record of a kind that stands once has none.
    pub fn key(self) -> Option<Key> {
        match self {
            Record::Region { start, .. } => Some(Key::Start(start)),
            Record::Parameter { number, .. } => Some(Key::Number(number)),
            Record::Item { code, .. } => Some(Key::Code(code)),
            _ => None,
        }
    }
}

// A record's name: its kind and its key.
impl fmt::Display for Record<'_> {
    fn fmt<W: fmt::Write>(&self, f: &mut fmt::Formatter<W>) -> fmt::Result {
        let word = word(self.kind());
        match self.key() {
            Some(key) => write!(f, "{word} {key}"),
            None => write!(f, "{word}"),
        }
    }
}

// The records of a sheet from its front, each with its place, up to an octet that is no kind.
#[derive(Clone, Copy)]
pub struct Records<'a> {
    place: usize,
    rest: &'a [u8],
}

impl<'a> Records<'a> {
    pub fn of(sheet: &'a [u8]) -> Records<'a> {
        Records {
            place: 0,
            rest: sheet,
        }
    }
}

impl<'a> Iterator for Records<'a> {
    type Item = (usize, Record<'a>);

    ghost remaining = { λ s. at_most (length s.rest.now) };

    fn next(&mut self) -> Option<(usize, Record<'a>)> {
        let (first, body) = self.rest.split_first()?;
        let kind = Kind::try_from(*first).ok()?;
        let place = self.place;
        let size = size(kind);
        self.place = place.saturating_add(size);
        self.rest = self.rest.get(size..).unwrap_or(&[]);
        Some((place, Record::read(kind, body)))
    }
}
