// The walk: the sheet is read record by record from its front, and the first fault is told with its place.
ghost use Rattle.std.specs.Prelude.{◌≡◌, ℕ, ◌≤◌, ◌<◌, ◌-◌, eqb, length, get_or, drop};
ghost use Rattle.octets.specs.Pick.{pick};
ghost use Rattle.sheet.specs.Sound.{Standing};
ghost use Rattle.sheet.specs.Handed.{counts_number, failed_number, fault_of, tells, failed_at};
ghost use Rattle.sheet.specs.Walk.{counts, form_of, layout_of, ended_of, walk_of, verdict_of};

use crate::reading::Unread;
use crate::records::{Counts, Fault, Flaw, Record};

// The types of PDU. A sheet picks one by the kind of its first record.
#[derive(Clone, Copy)]
pub enum Form {
    Enhanced,
    Short,
}

// The type that a link record's kind picks.
#[tactic(auto, using(crate::proofs::Picks::picks), unfolding(crate::specs::Walk::form_of))]
fn form_of(kind: u8) -> Form
    ensures { result ≡ form_of kind }
{
    if kind == 5 {
        return Form::Short;
    }
    Form::Enhanced
}

// What a valid sheet says: the type, the link record's three fields, the counts, how many failures in a row it tolerates, the release of the
// drive rules, and the octets of memory.
#[derive(Clone, Copy)]
pub struct Layout {
    pub form: Form,
    pub l: u8,
    pub version: u8,
    pub profile: u8,
    pub regions: u8,
    pub parameters: u8,
    pub items: u8,
    pub tolerances: u8,
    pub tolerance: u8,
    pub releases: u8,
    pub release: u8,
    pub memory: u32,
}

// What the one record of a kind says with its one octet, and what holds without it.
#[tactic(auto, using(crate::proofs::Picks::picks))]
fn said(sheet: &[u8], count: u8, at: usize, without: u8) -> u8
    ensures { result ≡ pick (eqb count 0) without (get_or sheet.now at 0) }
{
    if count == 0 {
        return without;
    }
    octets::octet(sheet, at)
}

// The layout of a sheet whose records were counted: no failure in a row is tolerated without a record of that, and the drive rules have release 1 without one.
#[tactic(auto, unfolding(crate::specs::Walk::layout_of, crate::specs::Walk::tolerance_in, crate::specs::Walk::release_in))]
fn laid_out(sheet: &[u8], so: Counts) -> Layout
    ensures { result ≡ layout_of sheet.now so }
{
    let behind_items = 5
        + 10 * (so.regions as usize)
        + 8 * (so.parameters as usize)
        + 35 * (so.items as usize);
    Layout {
        form: form_of(octets::octet(sheet, 0)),
        l: octets::octet(sheet, 1),
        version: octets::octet(sheet, 2),
        profile: octets::octet(sheet, 3),
        regions: so.regions,
        parameters: so.parameters,
        items: so.items,
        tolerances: so.tolerances,
        tolerance: said(sheet, so.tolerances, behind_items, 0),
        releases: so.releases,
        release: said(
            sheet,
            so.releases,
            behind_items + 2 * (so.tolerances as usize),
            1,
        ),
        memory: so.memory,
    }
}

// Where a fault's number stands in the walk's: above every count, at 2^56.
const FAULT_FROM: u64 = 72057594037927936;

// The counts of a whole sheet as one number. The walk takes and hands back what fits in registers and nothing else, so that it is compiled into a
// loop and takes no stack from record to record.
fn counted(so: Counts) -> u64
    requires { so.memory ≤ 65536 }
    ensures { result ≡ counts_number so }
{
    so.regions as u64
        + 256 * (so.parameters as u64)
        + 65536 * (so.items as u64)
        + 16777216 * (so.tolerances as u64)
        + 268435456 * (so.releases as u64)
        + 4294967296 * (so.memory as u64)
}

// A fault with its place as one number.
fn failed(fault: Fault, place: usize) -> u64
    requires { place ≤ 65535 }
    ensures { result ≡ failed_number fault place }
{
    place as u64 + FAULT_FROM * (fault.number() as u64)
}

// The fault of a reading that is no record, with its place: taken apart here, since an `else` binds nothing.
fn fault_at(read: Result<Record, Fault>, place: usize) -> u64
    requires { place ≤ 65535 }
    ensures { result ≡ failed_at read place }
{
    match read {
        Err(fault) => failed(fault, place),
        Ok(_) => failed(Fault::Ended, place),
    }
}

// At the end record, which stands at a place of the sheet: nothing may stand behind it.
fn ended(sheet: &[u8], at: usize, so: Counts) -> u64
    requires { (length sheet.now ≤ 2048) × (at ≤ length sheet.now) × (so.memory ≤ 65536) × (so.tolerances ≤ 1) × (so.releases ≤ 1) }
    ensures { tells sheet.now result ≡ ended_of sheet.now (drop at sheet.now) so }
{
    let behind = at + 1;
    if behind < sheet.len() {
        return failed(Fault::Misplaced, behind);
    }
    counted(so)
}

// From one record to the next: as document 01 has it, it calls itself on the part behind the record just read, which it is told by the place where that part begins, and by the
// counts one by one, since a struct of more than eight octets would be handed on in memory.
fn walk(
    whole: &&[u8],
    at: usize,
    regions: u8,
    parameters: u8,
    items: u8,
    tolerances: u8,
    releases: u8,
    memory: u32,
) -> u64
    requires { (at ≤ length whole.now.now) × Standing whole.now.now (drop at whole.now.now) (counts regions parameters items tolerances releases memory) }
    ensures { (f : ℕ) → length whole.now.now - at < f → tells whole.now.now result ≡ walk_of f whole.now.now (drop at whole.now.now) (counts regions parameters items tolerances releases memory) }
{
    let sheet = *whole;
    let rest = &sheet[at..];
    let so = Counts {
        regions,
        parameters,
        items,
        tolerances,
        releases,
        memory,
    };
    let unread = Unread { sheet, rest, so };
    let read = unread.read_record();
    let Ok(record) = read else {
        return fault_at(read, at);
    };
    if octets::octet(rest, 0) == 0 {
        return ended(sheet, at, so);
    }
    let next = record.counts;
    walk(
        whole,
        at + record.size as usize,
        next.regions,
        next.parameters,
        next.items,
        next.tolerances,
        next.releases,
        next.memory,
    )
}

// The fault of a paper's number in the walk's; a number that is none counts as the last.
fn fault_of(number: u8) -> Fault
    ensures { result ≡ fault_of number }
{
    match number {
        11 => Fault::Ended,
        12 => Fault::Unknown,
        13 => Fault::Misplaced,
        14 => Fault::Range,
        15 => Fault::Disorder,
        16 => Fault::Excess,
        _ => Fault::Unmapped,
    }
}

// The verdict that the walk's number tells.
fn told(sheet: &[u8], walked: u64) -> Result<Layout, Flaw>
    ensures { result ≡ tells sheet.now walked }
{
    let number = (walked / FAULT_FROM) as u8;
    if number == 0 {
        return Ok(laid_out(
            sheet,
            Counts {
                regions: (walked % 256) as u8,
                parameters: (walked / 256 % 256) as u8,
                items: (walked / 65536 % 256) as u8,
                tolerances: (walked / 16777216 % 16) as u8,
                releases: (walked / 268435456 % 16) as u8,
                memory: (walked / 4294967296 % 16777216) as u32,
            },
        ));
    }
    Err(Flaw {
        fault: fault_of(number),
        place: (walked % 65536) as u16,
    })
}

// The verdict on a sheet of any octets.
pub fn check(sheet: &[u8]) -> Result<Layout, Flaw>
    ensures { result ≡ verdict_of sheet.now }
{
    if 2048 < sheet.len() {
        return Err(Flaw {
            fault: Fault::Ended,
            place: 0,
        });
    }
    told(sheet, walk(&sheet, 0, 0, 0, 0, 0, 0, 0))
}
