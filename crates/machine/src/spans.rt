// Checks 4 and 5 over a span of memory. A parameter's span lies in regions, by fault 17, so it has check 5 alone.
ghost use Rattle.std.specs.Prelude.{◌≡◌};
ghost use Rattle.regions.specs.Region.{regions_of};
ghost use Rattle.machine.specs.Spans.{right_of, moved, granted_of, span_of};

use crate::codes::Alarm;
use crate::words::{Carrier, Done, Effect, Field, Refused};
use link::state::LinkState;
use regions::Right;
use regions::search::Regions;

// The right that a read or a write asks in a link.
#[tactic(auto, using(crate::proofs::Picks::picks), unfolding(crate::specs::Spans::right_of))]
fn right_of(writes: bool, link: u8) -> Right
    ensures { result ≡ right_of writes link }
{
    if !writes {
        return Right::Read;
    }
    if link == link::state::SYNC_CONNECTED {
        return Right::WriteSync;
    }
    Right::WriteAsync
}

// The octets at a place, read or written.
#[tactic(auto, unfolding(crate::specs::Spans::moved))]
fn moves(writes: bool, by: Carrier, place: u32, size: u8) -> Effect
    ensures { result ≡ moved writes by place size }
{
    if writes {
        return Effect::Writes(by, place, size);
    }
    Effect::Reads(by, place, size)
}

// A span asked to be read, or to be written, that is known to lie in regions: its right alone is asked.
#[tactic(auto, using(crate::proofs::Picks::picks), unfolding(crate::specs::Spans::granted_of, regions::specs::Search::reach_of))]
pub fn granted(
    writes: bool,
    regions: &Regions,
    by: Carrier,
    address: u32,
    size: u8,
    st: LinkState,
) -> Result<Done, Refused>
    ensures { result ≡ granted_of writes (regions_of regions.now.sheet.now regions.now.count) by address size st }
{
    let reach = regions.before(right_of(writes, st.link), address, size);
    if reach.before == size {
        return Ok(Done {
            effect: moves(writes, by, reach.place, size),
            next: st,
        });
    }
    Err(Refused {
        alarm: Alarm::NoRight,
        field: Field::Span(reach.before),
    })
}

// A span asked to be read, or to be written. What has the right is mapped, so one search of the span accepts it; a second tells why it is refused.
#[tactic(auto, using(regions::proofs::Spans::span_mapped, crate::proofs::Picks::picks), unfolding(crate::specs::Spans::span_of, crate::specs::Spans::granted_of))]
pub fn span(
    writes: bool,
    regions: &Regions,
    by: Carrier,
    address: u32,
    size: u8,
    st: LinkState,
) -> Result<Done, Refused>
    ensures { result ≡ span_of writes (regions_of regions.now.sheet.now regions.now.count) by address size st }
{
    let asked = granted(writes, regions, by, address, size, st);
    if asked.is_ok() || regions.has(Right::Mapped, address, size) {
        return asked;
    }
    Err(Refused::out_of_range(Field::Address))
}
