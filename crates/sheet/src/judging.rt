// A record's fields judged, by value: the checks of each kind in document 01's order, and the first that fails is the fault.
ghost use Rattle.std.specs.Prelude.{◌≡◌};
ghost use Rattle.sheet.specs.Judging.{judged_region, judged_parameter, judged_item, judged_tolerance, judged_release};

use crate::entries::{Item, Parameter};
use crate::records::{Counts, Fault, Record};
use regions::Region;

#[tactic(auto, using(crate::proofs::Picks::picks), unfolding(crate::specs::Judging::judged_region))]
pub fn judge_region(region: Region, end: u64, so: Counts) -> Result<Record, Fault>
    ensures { result ≡ judged_region region end so }
{
    if region.length == 0 {
        return Err(Fault::Range);
    }
    if 4294967296 < region.start as u64 + region.length as u64 {
        return Err(Fault::Range);
    }
    if 7 < region.rights {
        return Err(Fault::Range);
    }
    if 32 <= so.regions {
        return Err(Fault::Excess);
    }
    if 65536 < so.memory as u64 + region.length as u64 {
        return Err(Fault::Excess);
    }
    if (region.start as u64) < end {
        return Err(Fault::Disorder);
    }
    Ok(Record {
        size: 10,
        counts: Counts {
            regions: so.regions + 1,
            memory: so.memory + region.length,
            ..so
        },
    })
}

#[tactic(auto, using(crate::proofs::Picks::picks), unfolding(crate::specs::Judging::judged_parameter))]
pub fn judge_parameter(
    parameter: Parameter,
    least: u32,
    mapped: bool,
    so: Counts,
) -> Result<Record, Fault>
    ensures { result ≡ judged_parameter parameter least mapped so }
{
    if parameter.size == 0 {
        return Err(Fault::Range);
    }
    if 56 < parameter.size {
        return Err(Fault::Range);
    }
    if 64 <= so.parameters {
        return Err(Fault::Excess);
    }
    if (parameter.number as u32) < least {
        return Err(Fault::Disorder);
    }
    if !mapped {
        return Err(Fault::Unmapped);
    }
    Ok(Record {
        size: 8,
        counts: Counts {
            parameters: so.parameters + 1,
            ..so
        },
    })
}

#[tactic(auto, using(crate::proofs::Picks::picks), unfolding(crate::specs::Judging::judged_item))]
pub fn judge_item(item: Item, tail: bool, least: u16, so: Counts) -> Result<Record, Fault>
    ensures { result ≡ judged_item item tail least so }
{
    if item.length == 0 {
        return Err(Fault::Range);
    }
    if 32 < item.length {
        return Err(Fault::Range);
    }
    if !tail {
        return Err(Fault::Range);
    }
    if 32 <= so.items {
        return Err(Fault::Excess);
    }
    if (item.code as u16) < least {
        return Err(Fault::Disorder);
    }
    Ok(Record {
        size: 35,
        counts: Counts {
            items: so.items + 1,
            ..so
        },
    })
}

// Request 9's record, which stands once: how many failures of the watchdog in a row are tolerated. It shares no more with request 13's below than the size,
// since range and count differ.
#[tactic(auto, using(crate::proofs::Picks::picks), unfolding(crate::specs::Judging::judged_tolerance))]
pub fn judge_tolerance(tolerance: u8, so: Counts) -> Result<Record, Fault>
    ensures { result ≡ judged_tolerance tolerance so }
{
    if 3 < tolerance {
        return Err(Fault::Range);
    }
    Ok(Record {
        size: 2,
        counts: Counts {
            tolerances: 1,
            ..so
        },
    })
}

// Request 13's record, which stands once: the release of the drive rules.
#[tactic(auto, using(crate::proofs::Picks::picks), unfolding(crate::specs::Judging::judged_release))]
pub fn judge_release(release: u8, so: Counts) -> Result<Record, Fault>
    ensures { result ≡ judged_release release so }
{
    if release == 0 {
        return Err(Fault::Range);
    }
    if 2 < release {
        return Err(Fault::Range);
    }
    Ok(Record {
        size: 2,
        counts: Counts { releases: 1, ..so },
    })
}
