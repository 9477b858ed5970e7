// The regions of a sheet, read where the caller holds the sheet: nothing is copied, and nothing here knows any other record.
// A virtual address is a u32, or a u64 where one past the last address must not wrap; a place is an index into the memory.
#![tactic(auto)]

pub mod search; // search.rt: one octet's place and rights, and the searches over a span

ghost use Rattle.std.specs.Prelude.{◌≡◌, ◌+◌, ◌≤◌, length};
ghost use Rattle.regions.specs.Region.{region_from, gives_of};

// What a region record says behind its kind octet.
#[derive(Clone, Copy)]
pub struct Region {
    pub start: u32,
    pub length: u32,
    pub rights: u8,
}

impl Region {
    // One past the last address.
    pub fn end(self) -> u64
        ensures { result ≡ self.start + self.length }
    {
        self.start as u64 + self.length as u64
    }
}

// What can be asked of an octet: that a region has it at all, and the three rights.
#[derive(Clone, Copy)]
pub enum Right {
    Mapped,
    Read,
    WriteAsync,
    WriteSync,
}

// The region record at `at` of a sheet whose end does not cut it. `parameter_in` is its like for another record: they share no field, so one function for both
// would be no plainer.
pub fn region_in(sheet: &[u8], at: usize) -> Region
    requires { at + 10 ≤ length sheet.now }
    ensures { result ≡ region_from sheet.now at }
{
    Region {
        start: octets::le4(sheet[at + 1], sheet[at + 2], sheet[at + 3], sheet[at + 4]),
        length: octets::le4(sheet[at + 5], sheet[at + 6], sheet[at + 7], sheet[at + 8]),
        rights: sheet[at + 9],
    }
}

// Whether a rights octet gives the right.
#[tactic(auto, unfolding(crate::specs::Region::gives_of))]
pub fn gives(rights: u8, right: Right) -> bool
    ensures { result ≡ gives_of rights right }
{
    match right {
        Right::Mapped => true,
        Right::Read => rights % 2 == 1,
        Right::WriteAsync => rights / 2 % 2 == 1,
        Right::WriteSync => rights / 4 % 2 == 1,
    }
}
