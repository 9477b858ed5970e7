// Checks 2 to 5, command by command. Layout, state and command go side by side: the state is handed on by value and changes, and not every check needs the sheet.
ghost use Rattle.std.specs.Prelude.{◌≡◌, ◌-◌};
ghost use Rattle.regions.specs.Apart.{Laid};
ghost use Rattle.machine.specs.Judging.{parameter_of, item_of, alarms_of, clear_of, element_of, memory_of, data_of, strayed, judge_of};

use crate::codes::{Alarm, Code};
use crate::words::{Carrier, Command, Done, Effect, Field, Refused};
use link::state::LinkState;
use regions::search::Regions;
use sheet::device::Device;
use sheet::walk::Layout;

// The octets behind the first `taken` of a PDU; none where it is shorter.
fn room(l: u8, taken: u8) -> u8
    ensures { result ≡ l - taken }
{
    l.saturating_sub(taken)
}

// PRM_RD and PRM_WR.
#[tactic(auto, using(crate::proofs::Picks::picks), unfolding(crate::specs::Judging::parameter_of, crate::specs::Judging::parameter_data))]
pub fn parameter(writes: bool, device: &Device, st: LinkState, c: Command) -> Result<Done, Refused>
    ensures { result ≡ parameter_of writes device.now.sheet.now device.now.layout st c }
{
    let layout = device.layout;
    let found = sheet::entries::find_parameter(
        device.sheet,
        layout.regions,
        layout.parameters,
        c.number,
    );
    let p = found.ok_or(Refused::out_of_range(Field::Number))?;
    if c.size != p.size {
        return Err(Refused::out_of_range(Field::Size));
    }
    if room(layout.l, 8) < c.size {
        return Err(Refused::out_of_range(Field::Size));
    }
    let regions = device.regions();
    crate::spans::granted(writes, &regions, Carrier::Parameter, p.address, p.size, st)
}

// ID_RD, of any sheet: a device would ask that the counted records lie in it.
#[tactic(auto, using(crate::proofs::Picks::picks), unfolding(crate::specs::Judging::item_of, crate::specs::Judging::item_data))]
pub fn item(sheet: &[u8], layout: Layout, st: LinkState, c: Command) -> Result<Done, Refused>
    ensures { result ≡ item_of sheet.now layout st c }
{
    let found = sheet::entries::find_item(
        sheet,
        layout.regions,
        layout.parameters,
        layout.items,
        c.item,
    );
    let i = found.ok_or(Refused::out_of_range(Field::Item))?;
    if c.count == 0 {
        return Err(Refused::out_of_range(Field::Count));
    }
    if (i.length as u32) < c.offset as u32 + c.count as u32 {
        return Err(Refused::out_of_range(Field::Count));
    }
    if (room(layout.l, 8) as u16) < c.count {
        return Err(Refused::out_of_range(Field::Count));
    }
    Ok(Done {
        effect: Effect::Identifies(i.at as u32 + c.offset as u32, c.count as u8),
        next: st,
    })
}

// ALM_RD.
#[tactic(auto, using(crate::proofs::Picks::picks), unfolding(crate::specs::Judging::alarms_of))]
pub fn alarms(layout: Layout, st: LinkState, c: Command) -> Result<Done, Refused>
    ensures { result ≡ alarms_of layout st c }
{
    if layout.l < 16 {
        return Err(Refused::out_of_range(Field::Whole));
    }
    if c.alarm_mode != 0 {
        return Err(Refused::out_of_range(Field::AlarmMode));
    }
    Ok(Done {
        effect: Effect::Alarms(st.latches.command, st.latches.communication),
        next: st,
    })
}

// ALM_CLR.
#[tactic(auto, using(crate::proofs::Picks::picks), unfolding(crate::specs::Judging::clear_of))]
pub fn clear(st: LinkState, c: Command) -> Result<Done, Refused>
    ensures { result ≡ clear_of st c }
{
    if c.alarm_mode != 0 {
        return Err(Refused::out_of_range(Field::AlarmMode));
    }
    Ok(Done {
        effect: Effect::Quiet,
        next: st.cleared(),
    })
}

// The octets of an element of the memory commands, a number for a number; 0, as `element_of` has it, where the mode has none.
#[tactic(auto, using(crate::proofs::Picks::picks), unfolding(crate::specs::Judging::element_of))]
pub fn element(mode: u8) -> u8
    ensures { result ≡ element_of mode }
{
    if mode % 16 != 1 {
        return 0;
    }
    match mode / 16 {
        1 => 1,
        2 => 2,
        3 => 4,
        _ => 0,
    }
}

// MEM_RD and MEM_WR, where a device would ask more than the regions: count times element is taken at 32 bits, where it cannot wrap.
#[tactic(auto, using(crate::proofs::Picks::picks), unfolding(crate::specs::Judging::memory_of))]
pub fn memory(
    writes: bool,
    sheet: &[u8],
    layout: Layout,
    st: LinkState,
    c: Command,
) -> Result<Done, Refused>
    requires { Laid sheet.now layout.regions }
    ensures { result ≡ memory_of writes sheet.now layout st c }
{
    let width = element(c.mode);
    if width == 0 {
        return Err(Refused::out_of_range(Field::Mode));
    }
    let n = c.count as u32 * width as u32;
    if n == 0 {
        return Err(Refused::out_of_range(Field::Count));
    }
    if (room(layout.l, 12) as u32) < n {
        return Err(Refused::out_of_range(Field::Count));
    }
    let regions = Regions {
        sheet,
        count: layout.regions,
    };
    crate::spans::span(writes, &regions, Carrier::Memory, c.address, n as u8, st)
}

// Checks 4 and 5 of a known code; what is none has the judgement of MEM_WR, as `data_of` has it. Each command's check is given other things, so a table of functions
// would be no plainer than the match, which is seen to be whole.
#[tactic(auto, using(crate::proofs::Picks::picks, std::proofs::lemmas::Bool::Decides::nat_tests), unfolding(crate::specs::Codes::is_known, crate::specs::Judging::data_of))]
pub fn data_checks(device: &Device, st: LinkState, c: Command) -> Result<Done, Refused>
    ensures { result ≡ data_of device.now.sheet.now device.now.layout st c }
{
    let sheet = device.sheet;
    let layout = device.layout;
    let named = Code::try_from(c.code);
    // One call of `memory`, so that the compiler sets it in place.
    let writes = !matches!(named, Ok(Code::MemRd));
    match named {
        Ok(Code::Nop) => Ok(Done {
            effect: Effect::Quiet,
            next: st,
        }),
        Ok(Code::PrmRd) => parameter(false, device, st, c),
        Ok(Code::PrmWr) => parameter(true, device, st, c),
        Ok(Code::IdRd) => item(sheet, layout, st, c),
        Ok(Code::AlmRd) => alarms(layout, st, c),
        Ok(Code::AlmClr) => clear(st, c),
        Ok(Code::SyncSet) => Ok(Done {
            effect: Effect::Quiet,
            next: st.synced(),
        }),
        Ok(Code::Connect) => crate::connecting::connect(layout, st, c),
        Ok(Code::Disconnect) => Ok(Done {
            effect: Effect::Quiet,
            next: st.dropped(),
        }),
        _ => memory(writes, sheet, layout, st, c),
    }
}

// A judgement beside the first octet that should be zero, 0 where there is none: only a refusal by check 4 comes before it.
#[tactic(auto, using(crate::proofs::Picks::picks), unfolding(crate::specs::Judging::strayed))]
fn beside(stray: u8, judgement: Result<Done, Refused>) -> Result<Done, Refused>
    ensures { result ≡ strayed stray judgement }
{
    let stands = matches!(judgement, Err(refused) if refused.alarm == Alarm::OutOfRange);
    if (stray == 0) | stands {
        return judgement;
    }
    Err(Refused::out_of_range(Field::Stray(stray)))
}

// Checks 2 to 5.
#[tactic(auto, using(crate::proofs::Picks::picks), unfolding(crate::specs::Judging::judge_of))]
pub fn judge(device: &Device, st: LinkState, c: Command, stray: u8) -> Result<Done, Refused>
    ensures { result ≡ judge_of device.now.sheet.now device.now.layout st c stray }
{
    let form = device.layout.form;
    if !crate::codes::is_known(form, c.code) {
        return Err(Refused {
            alarm: Alarm::OutOfSupport,
            field: Field::Whole,
        });
    }
    if !crate::codes::is_allowed(st.link, c.code) {
        return Err(Refused {
            alarm: Alarm::WrongPhase,
            field: Field::Whole,
        });
    }
    beside(stray, data_checks(device, st, c))
}
