// A record of a sheet where the caller holds it, by the place of its kind octet. An octet past the sheet's end counts as 0.
ghost use Rattle.std.specs.Prelude.{◌≡◌, ◌+◌, ◌-◌, ◌<◌, ◌≤◌, [], ◌∷◌, get_or};
ghost use Rattle.sheet.specs.Kinds.{size_of};
ghost use Rattle.difference.specs.Records.{kind_at, size_at, key_width, key_at, place_of, rank_at, first_width, second_width, third_width, same_of, bit_of, bits_at};

use sheet::kinds::Kind;

// The kind of a record; 0 is the end. It answers at any place, which `Place` does not have; the kind stays a number, as an entry has it.
#[tactic(auto, unfolding(crate::specs::Records::kind_at))]
pub fn kind_at(sheet: &[u8], at: usize) -> u8
    ensures { result ≡ kind_at sheet.now at }
{
    octets::octet(sheet, at) % 8
}

// The octets of a record of a kind.
#[tactic(auto, unfolding(sheet::specs::Kinds::size_of, sheet::specs::Kinds::is_kind, octets::specs::Pick::pick))]
pub fn size(kind: u8) -> usize
    ensures { result ≡ size_of kind }
{
    match Kind::try_from(kind) {
        Ok(Kind::End) => 1,
        Ok(Kind::Link | Kind::ShortLink) => 4,
        Ok(Kind::Region) => 10,
        Ok(Kind::Parameter) => 8,
        Ok(Kind::Item) => 35,
        Ok(Kind::Tolerance | Kind::Release) | Err(_) => 2,
    }
}

// The octets of a kind's key.
#[tactic(auto, unfolding(crate::specs::Records::key_width, sheet::specs::Kinds::is_kind, octets::specs::Pick::pick))]
pub fn key_width(kind: u8) -> usize
    ensures { result ≡ key_width kind }
{
    match Kind::try_from(kind) {
        Ok(Kind::Region) => 4,
        Ok(Kind::Parameter) => 2,
        Ok(Kind::Item) => 1,
        _ => 0,
    }
}

// Where a kind stands in the order.
#[tactic(auto, unfolding(crate::specs::Records::place_of, sheet::specs::Kinds::is_kind, octets::specs::Pick::pick))]
fn order(kind: u8) -> u8
    ensures { result ≡ place_of kind }
{
    match Kind::try_from(kind) {
        Ok(Kind::End) => 8,
        Ok(Kind::ShortLink) => 1,
        _ => kind,
    }
}

// The octets of the three fields of a kind's body; 0 where there is none.
#[tactic(auto, unfolding(crate::specs::Records::first_width, crate::specs::Records::second_width, crate::specs::Records::third_width, sheet::specs::Kinds::is_kind, octets::specs::Pick::pick))]
fn widths(kind: u8) -> [usize; 3]
    ensures value { result ≡ first_width kind ∷ second_width kind ∷ third_width kind ∷ [] }
    ensures most { get_or result 0 0 + get_or result 1 0 + get_or result 2 0 ≤ 40 }
{
    match Kind::try_from(kind) {
        Ok(Kind::Region) => [4, 4, 1],
        Ok(Kind::Parameter) => [2, 4, 1],
        Ok(Kind::Item) => [1, 1, 32],
        Ok(Kind::End | Kind::Link | Kind::ShortLink) => [1, 1, 1],
        Ok(Kind::Tolerance | Kind::Release) | Err(_) => [1, 0, 0],
    }
}

// A record of a sheet, by the place of its kind octet: so near to 0 that no octet of it is past the largest place.
#[derive(Clone, Copy)]
pub struct Place<'a> {
    pub sheet: &'a [u8],
    pub at: usize,
    ghost near: { at ≤ 4096 },
}

impl Place<'_> {
    // One of its octets, from the kind octet on.
    pub fn octet(self, k: usize) -> u8
        requires { k ≤ 64 }
        ensures { result ≡ get_or self.entry.sheet.now (self.entry.at + k) 0 }
    {
        octets::octet(self.sheet, self.at + k)
    }

    // Its kind; 0 is the end.
    #[tactic(auto, using(crate::proofs::Bounds::kind_under))]
    pub fn kind(self) -> u8
        ensures value { result ≡ kind_at self.entry.sheet.now self.entry.at }
        ensures most { result ≤ 7 }
    {
        kind_at(self.sheet, self.at)
    }

    // Its key, as a number.
    #[tactic(auto, unfolding(crate::specs::Records::key_at, sheet::specs::Kinds::is_kind, octets::specs::Pick::pick))]
    fn key(self, kind: u8) -> u32
        ensures { result ≡ key_at self.entry.sheet.now self.entry.at kind }
    {
        match Kind::try_from(kind) {
            Ok(Kind::Region) => octets::le4_at(self.sheet, self.at as u32 + 1),
            Ok(Kind::Parameter) => octets::le2(self.octet(1), self.octet(2)) as u32,
            Ok(Kind::Item) => self.octet(1) as u32,
            _ => 0,
        }
    }

    // Where it stands in the order.
    #[tactic(auto, unfolding(crate::specs::Records::rank_at))]
    pub fn rank(self) -> u64
        ensures { result ≡ rank_at self.entry.sheet.now self.entry.at }
    {
        let kind = self.kind();
        4294967296 * (order(kind) as u64) + self.key(kind) as u64
    }

    // The octets of its key, which come first in the body.
    #[tactic(auto, using(crate::proofs::Bounds::key_most))]
    pub fn key_width(self) -> usize
        ensures value { result ≡ key_width (kind_at self.entry.sheet.now self.entry.at) }
        ensures most { result ≤ 4 }
    {
        key_width(self.kind())
    }

    // The octets of its body.
    #[tactic(auto, using(crate::proofs::Bounds::size_least, crate::proofs::Bounds::size_most))]
    pub fn body(self) -> usize
        ensures value { result ≡ size_at self.entry.sheet.now self.entry.at - 1 }
        ensures most { result ≤ 34 }
    {
        size(self.kind()) - 1
    }

    // The place behind it.
    #[tactic(auto, using(crate::proofs::Bounds::size_least))]
    pub fn behind(self) -> usize
        ensures { result ≡ self.entry.at + size_at self.entry.sheet.now self.entry.at }
    {
        self.at + 1 + self.body()
    }

    // Whether so many octets are the same in another record: it goes through them all.
    #[tactic(auto, using(crate::proofs::Same::same_more), unfolding(crate::specs::Records::same_of))]
    fn same(self, other: Place, from: usize, n: usize) -> bool
        requires { from + n ≤ 64 }
        ensures { result ≡ same_of self.entry.sheet.now (self.entry.at + from) other.entry.sheet.now (other.entry.at + from) n }
    {
        let mut so_far = true;
        for k in 0..n {
            so_far = so_far & (self.octet(from + k) == other.octet(from + k));
        }
        so_far
    }

    // The bit of a field, where its octets differ.
    #[tactic(auto, unfolding(crate::specs::Records::bit_of, octets::specs::Pick::pick))]
    fn bit(self, other: Place, from: usize, n: usize, bit: u8) -> u8
        requires { from + n ≤ 64 }
        ensures value { result ≡ bit_of self.entry.sheet.now (self.entry.at + from) other.entry.sheet.now (other.entry.at + from) n bit }
        ensures most { result ≤ bit }
    {
        if self.same(other, from, n) {
            return 0;
        }
        bit
    }

    // A bit for each field that differs in another record of the kind.
    pub fn bits(self, other: Place, kind: u8) -> u8
        ensures { result ≡ bits_at self.entry.sheet.now self.entry.at other.entry.sheet.now other.entry.at kind }
    {
        let [one, two, three] = widths(kind);
        self.bit(other, 1, one, 1)
            + self.bit(other, 1 + one, two, 2)
            + self.bit(other, 1 + one + two, three, 4)
    }
}
