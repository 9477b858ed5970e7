// Parameters and ID items, read where the caller holds the sheet. Records have fixed sizes, so counts and an index give a place. Sheet and counts go side by side,
// since `find_item` and `item_at` answer on any of them; a type that keeps that the records lie in the sheet would ask more.
ghost use Rattle.std.specs.Prelude.{◌≡◌, ◌+◌, ◌-◌, ◌*◌, ◌≤◌, length};
ghost use Rattle.sheet.specs.Entries.{parameter_from, parameter_at, item_from, item_at, parameters_of, items_of, sought_parameter, sought_item};

// What a parameter record says behind its kind octet.
#[derive(Clone, Copy)]
pub struct Parameter {
    pub number: u16,
    pub address: u32,
    pub size: u8,
}

// What an ID item record says: its code, its length, and the place in the sheet of its first octet.
#[derive(Clone, Copy)]
pub struct Item {
    pub code: u8,
    pub length: u8,
    pub at: u16,
}

// The parameter record at `at` of a sheet whose end does not cut it.
#[tactic(auto, unfolding(crate::specs::Entries::parameter_from))]
pub fn parameter_in(sheet: &[u8], at: usize) -> Parameter
    requires { at + 8 ≤ length sheet.now }
    ensures { result ≡ parameter_from sheet.now at }
{
    Parameter {
        number: octets::le2(sheet[at + 1], sheet[at + 2]),
        address: octets::le4(sheet[at + 3], sheet[at + 4], sheet[at + 5], sheet[at + 6]),
        size: sheet[at + 7],
    }
}

// The ID item record whose kind octet stands at `at`; octets past the end count as 0.
#[tactic(auto, unfolding(crate::specs::Entries::item_from))]
pub fn item_from(sheet: &[u8], at: u16) -> Item
    requires { at + 3 ≤ 65535 }
    ensures { result ≡ item_from sheet.now at }
{
    Item {
        code: octets::octet(sheet, at as usize + 1),
        length: octets::octet(sheet, at as usize + 2),
        at: at + 3,
    }
}

// Item `k` of a sheet with `regions` regions and `parameters` parameters.
pub fn item_at(sheet: &[u8], regions: u8, parameters: u8, k: u8) -> Item
    ensures { result ≡ item_at sheet.now regions parameters k }
{
    item_from(
        sheet,
        4 + 10 * (regions as u16) + 8 * (parameters as u16) + 35 * (k as u16),
    )
}

// Parameter `j` of a sheet with `regions` regions, whose end does not cut it.
fn parameter_at(sheet: &[u8], regions: u8, j: u8) -> Parameter
    requires { 10 * regions + 8 * j + 8 ≤ length sheet.now - 4 }
    ensures { result ≡ parameter_at sheet.now regions j }
{
    parameter_in(sheet, 4 + 10 * (regions as usize) + 8 * (j as usize))
}

// The parameter of a number, in a sheet whose end cuts no parameter. The last one is asked behind the loop, so that there is one way out of the search:
// with two, the compiler sets what a refusal carries at each record that it passes. The range's `find` was tried, and is slower by a third.
#[tactic(auto, using(crate::proofs::Sought::sought_none))]
pub fn find_parameter(sheet: &[u8], regions: u8, parameters: u8, number: u16) -> Option<Parameter>
    requires { 10 * regions + 8 * parameters ≤ length sheet.now - 4 }
    ensures { result ≡ sought_parameter (parameters_of sheet.now regions parameters) number }
{
    if parameters == 0 {
        return None;
    }
    let mut at = parameters - 1;
    for j in 0..parameters - 1 {
        if parameter_at(sheet, regions, j).number == number {
            at = j;
            break;
        }
    }
    let parameter = parameter_at(sheet, regions, at);
    if parameter.number == number {
        return Some(parameter);
    }
    None
}

// The ID item of a code. One search for both kinds of entry would take the entry and its key as closures, and say of their calls what `sought` says at once.
#[tactic(auto, using(crate::proofs::Sought::sought_none))]
pub fn find_item(sheet: &[u8], regions: u8, parameters: u8, items: u8, code: u8) -> Option<Item>
    ensures { result ≡ sought_item (items_of sheet.now regions parameters items) code }
{
    for k in 0..items {
        let item = item_at(sheet, regions, parameters, k);
        if item.code == code {
            return Some(item);
        }
    }
    None
}
