// One record's reading from the front of the part that is not yet read: its fields are cut out, and then judged.
ghost use Rattle.std.specs.Prelude.{◌≡◌, ◌+◌, ◌-◌, ◌≤◌, ◌<◌, MatchResult, get_or, length, take, drop};
ghost use Rattle.octets.specs.Parts.{all_zero};
ghost use Rattle.sheet.specs.Kinds.{kind_number, size_of};
ghost use Rattle.sheet.specs.Sound.{Counted, Counted-prop};
ghost use Rattle.sheet.specs.Reading.{whole, link_of, region_of, parameter_of, item_of, body_of, record_of};

use crate::kinds::Kind;
use crate::records::{Counts, Fault, Record};
use crate::{entries, judging, kinds};
use regions::search::Regions;

// A sheet, the part of it that is not yet read, and what was read before: those records lie in the sheet.
#[derive(Clone, Copy)]
pub struct Unread<'a> {
    pub sheet: &'a [u8],
    pub rest: &'a [u8],
    pub so: Counts,
    ghost counted: { Counted sheet.now so } by { Counted-prop sheet.now so },
}

impl<'a> Unread<'a> {
    // The record at the front.
    #[tactic(auto, using(crate::proofs::Picks::picks), unfolding(crate::specs::Reading::record_of))]
    pub fn read_record(&self) -> Result<Record, Fault>
        ensures { result ≡ record_of self.now.sheet.now self.now.rest.now self.now.so }
    {
        if self.rest.len() == 0 {
            return Err(Fault::Ended);
        }
        let number = self.rest[0];
        let Ok(kind) = Kind::try_from(number) else {
            return Err(Fault::Unknown);
        };
        if kinds::misplaced(self.rest.len() == self.sheet.len(), number, self.so) {
            return Err(Fault::Misplaced);
        }
        self.read_body(kind)
    }

    // A record of a known kind in its place. Each kind's own reading looks whether the record is whole, so that the kind is asked once.
    #[tactic(auto, unfolding(crate::specs::Reading::body_of, crate::specs::Reading::tolerance_of, crate::specs::Reading::release_of, crate::specs::Kinds::size_of, octets::specs::Pick::pick))]
    fn read_body(&self, kind: Kind) -> Result<Record, Fault>
        requires { 1 ≤ length self.now.rest.now }
        ensures { result ≡ whole (size_of (kind_number kind)) self.now.rest.now (body_of (kind_number kind) self.now.sheet.now self.now.rest.now self.now.so) }
    {
        match kind {
            Kind::End => Ok(Record {
                size: 1,
                counts: self.so,
            }),
            Kind::Link | Kind::ShortLink => self.read_link(),
            Kind::Region => self.read_region(),
            Kind::Parameter => self.read_parameter(),
            Kind::Item => self.read_item(),
            Kind::Tolerance => judging::judge_tolerance(self.lone_octet()?, self.so),
            Kind::Release => judging::judge_release(self.lone_octet()?, self.so),
        }
    }

    #[tactic(auto, using(crate::proofs::Picks::picks), unfolding(crate::specs::Reading::link_of))]
    fn read_link(&self) -> Result<Record, Fault>
        ensures { result ≡ whole 4 self.now.rest.now (link_of self.now.rest.now self.now.so) }
    {
        if self.rest.len() < 4 {
            return Err(Fault::Ended);
        }
        if !kinds::length_fits(self.rest[0], self.rest[1]) {
            return Err(Fault::Range);
        }
        Ok(Record {
            size: 4,
            counts: self.so,
        })
    }

    #[tactic(auto, using(crate::proofs::Picks::picks), unfolding(crate::specs::Reading::region_of))]
    fn read_region(&self) -> Result<Record, Fault>
        ensures { result ≡ whole 10 self.now.rest.now (region_of self.now.sheet.now self.now.rest.now self.now.so) }
    {
        if self.rest.len() < 10 {
            return Err(Fault::Ended);
        }
        let region = regions::region_in(self.rest, 0);
        judging::judge_region(region, kinds::end_before(self.sheet, self.so), self.so)
    }

    #[tactic(auto, using(crate::proofs::Picks::picks), unfolding(crate::specs::Reading::parameter_of))]
    fn read_parameter(&self) -> Result<Record, Fault>
        ensures { result ≡ whole 8 self.now.rest.now (parameter_of self.now.sheet.now self.now.rest.now self.now.so) }
    {
        if self.rest.len() < 8 {
            return Err(Fault::Ended);
        }
        let parameter = entries::parameter_in(self.rest, 0);
        let read = Regions {
            sheet: self.sheet,
            count: self.so.regions,
        };
        let inside = read.covers(parameter.address, parameter.size);
        judging::judge_parameter(
            parameter,
            kinds::least_number(self.sheet, self.so),
            inside,
            self.so,
        )
    }

    #[tactic(auto, using(crate::proofs::Picks::picks), unfolding(crate::specs::Reading::item_of, crate::specs::Entries::item_from))]
    fn read_item(&self) -> Result<Record, Fault>
        ensures { result ≡ whole 35 self.now.rest.now (item_of self.now.sheet.now self.now.rest.now self.now.so) }
    {
        if self.rest.len() < 35 {
            return Err(Fault::Ended);
        }
        let item = entries::item_from(self.rest, 0);
        let tail = tail_is_zero(self.rest, item.length);
        judging::judge_item(item, tail, kinds::least_code(self.sheet, self.so), self.so)
    }

    // The octet behind the kind octet, which is all that a tolerance or a release has.
    fn lone_octet(&self) -> Result<u8, Fault>
        ensures { MatchResult result (λ octet. (2 ≤ length self.now.rest.now) × (octet ≡ get_or self.now.rest.now 1 0)) (λ fault. (length self.now.rest.now < 2) × (fault ≡ Fault.Ended)) }
    {
        if self.rest.len() < 2 {
            return Err(Fault::Ended);
        }
        Ok(self.rest[1])
    }
}

// Whether the octets past an ID item's length, up to its record's end, are zero.
#[tactic(auto, unfolding(octets::specs::Parts::all_zero))]
fn tail_is_zero(rest: &[u8], own: u8) -> bool
    requires { 35 ≤ length rest.now }
    ensures { result ≡ all_zero (take (32 - own) (drop (3 + own) rest.now)) }
{
    if 32 < own {
        return true;
    }
    let from = 3 + (own as usize);
    octets::zeros(&rest[from..35])
}
