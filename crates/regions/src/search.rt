// What is found in the regions of a sheet.
ghost use Rattle.std.specs.Prelude.{◌≡◌};
ghost use Rattle.regions.specs.Apart.{Laid, Laid-prop};
ghost use Rattle.regions.specs.Denies.{denies_of};
ghost use Rattle.regions.specs.Region.{regions_of};
ghost use Rattle.regions.specs.Search.{reach_of, span_has};
ghost use Rattle.regions.specs.declared.Right.TheVariants.{Mapped};

use crate::{Region, Right};

// The first regions of a sheet, which they lie in, ordered and apart.
#[derive(Clone, Copy)]
pub struct Regions<'a> {
    pub sheet: &'a [u8],
    pub count: u8,
    ghost laid: { Laid sheet.now count } by { Laid-prop sheet.now count },
}

impl<'a> Regions<'a> {
    // Whether a span lies wholly in regions: once through them, as far as the span or they go on without a gap.
    pub fn covers(&self, address: u32, size: u8) -> bool
        ensures { result ≡ span_has (regions_of self.now.sheet.now self.now.count) Mapped address size }
    {
        let end = address as u64 + size as u64;
        let mut to = address as u64;
        for i in 0..self.count {
            let region = crate::region_in(self.sheet, 4 + 10 * (i as usize));
            let behind = region.end();
            if to < behind {
                if to < region.start as u64 {
                    break;
                }
                to = behind;
                if end <= to {
                    break;
                }
            }
        }
        end <= to
    }

    // How many octets of a span come before the first that lacks the right: octets outside, one at a time, regions inside, left by the label. Regions rise,
    // so the end of the region that the last octet was found in stays at hand, and the search goes on behind it at the first octet that it does not have.
    // There is no gap between the octets found: in the memory the first is as far before the end of the regions passed as its address is before their last end.
    pub fn before(&self, right: Right, address: u32, size: u8) -> Reach
        ensures { result ≡ reach_of (regions_of self.now.sheet.now self.now.count) right address size }
    {
        let first = address as u64;
        let stop = first + size as u64;
        let last = 4 + 10 * (self.count as usize);
        let mut at = first;
        let mut end: u64 = 0;
        let mut base: u64 = 0;
        let mut place: usize = 4;
        // The inner loop goes on where it stopped at the last octet, which a `for` cannot.
        'octets: while at < stop {
            while end <= at {
                if last <= place {
                    break 'octets;
                }
                let region = crate::region_in(self.sheet, place);
                if denies(region, right, at) {
                    break 'octets;
                }
                end = region.end();
                base += region.length as u64;
                place += 10;
            }
            at += 1;
        }
        let before = (at - first) as u8;
        if at < stop {
            return Reach { before, place: 0 };
        }
        if at == first {
            return Reach {
                before: 0,
                place: 0,
            };
        }
        Reach {
            before,
            place: (base + first - end) as u32,
        }
    }

    // Whether every octet of a span has the right.
    #[tactic(auto, unfolding(crate::specs::Search::reach_of))]
    pub fn has(&self, right: Right, address: u32, size: u8) -> bool
        ensures { result ≡ span_has (regions_of self.now.sheet.now self.now.count) right address size }
    {
        self.before(right, address, size).before == size
    }
}

// Whether a region tells that the octet at an address lacks the right: it ends behind the octet, and starts behind it or does not give the right.
#[tactic(auto, unfolding(crate::specs::Denies::denies_of, octets::specs::Pick::pick))]
fn denies(region: Region, right: Right, address: u64) -> bool
    ensures { result ≡ denies_of region right address }
{
    if region.end() <= address {
        return false;
    }
    if address < region.start as u64 {
        return true;
    }
    !crate::gives(region.rights, right)
}

// What the search for a right tells of a span: how many of its octets come before the first that lacks the right, and the memory place of its first octet,
// 0 where one lacks it.
#[derive(Clone, Copy)]
pub struct Reach {
    pub before: u8,
    pub place: u32,
}
