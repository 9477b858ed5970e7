// What a record says behind its name.
use crate::records::Record;
use hexline::Hex;
use std::{fmt, str};
use words::Octets;

// A region's rights, by the number that an octet has, as it is printed where it is none of the eight.
#[derive(Clone, Copy)]
pub struct Rights(pub u8);

impl fmt::Display for Rights {
    fn fmt<W: fmt::Write>(&self, f: &mut fmt::Formatter<W>) -> fmt::Result {
        match self.0 {
            0 => write!(f, "none"),
            1 => write!(f, "read"),
            2 => write!(f, "write out of step"),
            3 => write!(f, "read, write out of step"),
            4 => write!(f, "write in step"),
            5 => write!(f, "read, write in step"),
            6 => write!(f, "write out of step, write in step"),
            7 => write!(f, "read, write out of step, write in step"),
            octet => write!(f, "{octet:02X}"),
        }
    }
}

// An ID item's octets: text where they are letters, digits and signs that stand between quotes as they are, and else hex.
#[derive(Clone, Copy)]
pub struct Content<'a>(pub &'a [u8]);

impl fmt::Display for Content<'_> {
    fn fmt<W: fmt::Write>(&self, f: &mut fmt::Formatter<W>) -> fmt::Result {
        let octets = self.0;
        let is_text = octets
            .iter()
            .all(|octet| matches!(*octet, b' '..=b'~') && *octet != b'"');
        match str::from_utf8(octets) {
            Ok(text) if is_text => write!(f, "\"{text}\""),
            _ => write!(f, "{}", Hex(octets)),
        }
    }
}

// What a record says behind its key; an end says nothing, and is not asked.
#[derive(Clone, Copy)]
pub struct Body<'a>(pub Record<'a>);

impl fmt::Display for Body<'_> {
    fn fmt<W: fmt::Write>(&self, f: &mut fmt::Formatter<W>) -> fmt::Result {
        match self.0 {
            Record::Link {
                l,
                version,
                profile,
            }
            | Record::ShortLink {
                l,
                version,
                profile,
            } => write!(f, "L {l}, version {version:02X}, profile {profile:02X}"),
            Record::Region { length, rights, .. } => {
                let length = Octets(u64::from(length));
                write!(f, "{length}, rights {}", Rights(rights))
            }
            Record::Parameter { address, size, .. } => {
                let size = Octets(u64::from(size));
                write!(f, "address {address:08X}, {size}")
            }
            Record::Item { length, .. } => write!(f, "{}", Octets(u64::from(length))),
            Record::Tolerance(n) | Record::Release(n) => write!(f, "{n}"),
            Record::End => Ok(()),
        }
    }
}
