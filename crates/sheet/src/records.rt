// What is told of a sheet's records: faults, counts, and the answer of one record's reading.
ghost use Rattle.std.specs.Prelude.{◌≡◌};
ghost use Rattle.sheet.specs.Faults.{number_of};

// What is wrong with a sheet. The paper's number of each is `number_of` of specs/Faults.antt.
#[derive(Clone, Copy)]
pub enum Fault {
    Ended,
    Unknown,
    Misplaced,
    Range,
    Disorder,
    Excess,
    Unmapped,
}

// How many records of each kind were read, and the octets of memory that the regions among them take.
#[derive(Clone, Copy)]
pub struct Counts {
    pub regions: u8,
    pub parameters: u8,
    pub items: u8,
    pub tolerances: u8,
    pub releases: u8,
    pub memory: u32,
}

// A record as it was read: its size, and the counts behind it.
#[derive(Clone, Copy)]
pub struct Record {
    pub size: u8,
    pub counts: Counts,
}

// What is wrong with a sheet, and where: the first octet of the record at fault.
#[derive(Clone, Copy)]
pub struct Flaw {
    pub fault: Fault,
    pub place: u16,
}

impl Fault {
    // The paper's number of a fault: a table, as `number_of` is, which document 01 asks for.
    #[tactic(auto, unfolding(crate::specs::Faults::number_of))]
    pub fn number(self) -> u8
        ensures { result ≡ number_of self }
    {
        match self {
            Fault::Ended => 11,
            Fault::Unknown => 12,
            Fault::Misplaced => 13,
            Fault::Range => 14,
            Fault::Disorder => 15,
            Fault::Excess => 16,
            Fault::Unmapped => 17,
        }
    }
}
