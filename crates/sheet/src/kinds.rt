// The kinds of record: where each may stand, and what its order is held against.
ghost use Rattle.std.specs.Prelude.{◌≡◌, ◌+◌, ◌-◌, ◌*◌, ◌≤◌, length};
ghost use Rattle.sheet.specs.Kinds.{NamesKind, is_length, is_kind, length_fits, misplaced_of, end_before, least_number, least_code};

use crate::records::Counts;

// The kinds of record, in the order of their numbers.
#[derive(Clone, Copy, PartialEq, Eq)]
pub enum Kind {
    End,
    Link,
    Region,
    Parameter,
    Item,
    ShortLink,
    Tolerance,
    Release,
}

// A kind octet that no record has.
#[derive(Clone, Copy, PartialEq, Eq)]
pub struct UnknownKind(pub u8);

impl TryFrom<u8> for Kind {
    type Error = UnknownKind;

    ghost try_from_gives = { NamesKind };

    #[tactic(auto, unfolding(crate::specs::Kinds::is_kind))]
    fn try_from(number: u8) -> Result<Kind, UnknownKind> {
        if !is_kind(number) {
            return Err(UnknownKind(number));
        }
        Ok(match number {
            0 => Kind::End,
            1 => Kind::Link,
            2 => Kind::Region,
            3 => Kind::Parameter,
            4 => Kind::Item,
            5 => Kind::ShortLink,
            6 => Kind::Tolerance,
            _ => Kind::Release,
        })
    }
}

// Whether a PDU length is one of the five: a set like `is_command_alarm` of link, but another.
#[tactic(auto, unfolding(crate::specs::Kinds::is_length))]
pub fn is_length(l: u8) -> bool
    ensures { result ≡ is_length l }
{
    (l == 8) | (l == 16) | (l == 32) | (l == 48) | (l == 64)
}

// Whether a link record of a kind may have a PDU length: one of the five, in the short type's 16.
#[tactic(auto, unfolding(crate::specs::Kinds::length_fits))]
pub fn length_fits(kind: u8, l: u8) -> bool
    ensures { result ≡ length_fits kind l }
{
    is_length(l) & (!(kind == 5) | (l == 16))
}

// Whether a kind is one of those that a sheet may have.
#[tactic(auto, unfolding(crate::specs::Kinds::is_kind))]
pub fn is_kind(kind: u8) -> bool
    ensures { result ≡ is_kind kind }
{
    kind <= 7
}

// Whether a known kind is out of place: at the front all but a link record, behind it a link record and what should come before. It goes by the number, since
// `misplaced_of` answers on every octet.
#[tactic(auto, unfolding(crate::specs::Kinds::misplaced_of))]
pub fn misplaced(first: bool, kind: u8, so: Counts) -> bool
    ensures { result ≡ misplaced_of first kind so }
{
    if first {
        return !((kind == 1) | (kind == 5));
    }
    match kind {
        1 => true,
        2 => (0 < so.parameters) | (0 < so.items) | (0 < so.tolerances) | (0 < so.releases),
        3 => (0 < so.items) | (0 < so.tolerances) | (0 < so.releases),
        4 => (0 < so.tolerances) | (0 < so.releases),
        5 => true,
        6 => (0 < so.tolerances) | (0 < so.releases),
        7 => 0 < so.releases,
        _ => false,
    }
}

// One past the last address of the region read last; 0 where none was read.
#[tactic(auto, using(crate::proofs::Picks::picks), unfolding(crate::specs::Kinds::end_before))]
pub fn end_before(sheet: &[u8], so: Counts) -> u64
    requires { 10 * so.regions ≤ length sheet.now - 4 }
    ensures { result ≡ end_before sheet.now so }
{
    let n = so.regions;
    if n == 0 {
        return 0;
    }
    let last = regions::region_in(sheet, 4 + 10 * ((n - 1) as usize));
    last.start as u64 + last.length as u64
}

// The least number that the next parameter may have: one more than the number read last.
#[tactic(auto, using(crate::proofs::Picks::picks), unfolding(crate::specs::Kinds::least_number))]
pub fn least_number(sheet: &[u8], so: Counts) -> u32
    requires { 10 * so.regions + 8 * so.parameters ≤ length sheet.now - 4 }
    ensures { result ≡ least_number sheet.now so }
{
    let n = so.parameters;
    if n == 0 {
        return 0;
    }
    let at = 4 + 10 * (so.regions as usize) + 8 * ((n - 1) as usize);
    let last = crate::entries::parameter_in(sheet, at);
    last.number as u32 + 1
}

// The least code that the next ID item may have: one more than the code read last.
#[tactic(auto, using(crate::proofs::Picks::picks), unfolding(crate::specs::Kinds::least_code))]
pub fn least_code(sheet: &[u8], so: Counts) -> u16
    ensures { result ≡ least_code sheet.now so }
{
    let n = so.items;
    if n == 0 {
        return 0;
    }
    let last = crate::entries::item_at(sheet, so.regions, so.parameters, n - 1);
    last.code as u16 + 1
}
