// The call, on two sheets of any octets and a buffer of any length.
ghost use Rattle.std.specs.Prelude.{◌≡◌, ◌≤◌, length};
ghost use Rattle.difference.specs.Answers.{refusal_answer, entered_answer};
ghost use Rattle.difference.specs.Difference.{listed, entered_of, difference_of};
ghost use Rattle.difference.specs.Merge.{merge_of};

use sheet::records::Flaw;
use slave::answers::Answer;

// Why no list is written: a fault of either sheet, or more octets than the lent buffer has, with how many they are.
#[derive(Clone, Copy)]
pub enum Refusal {
    First(Flaw),
    Second(Flaw),
    TooLong(u32),
}

// The number and the place of a refusal: the second sheet's numbers are ten higher than the first's.
impl From<Refusal> for Answer {
    ghost from_gives = { λ refusal answer. answer ≡ refusal_answer refusal };

    #[tactic(auto, using(crate::proofs::Bounds::fault_most), unfolding(crate::specs::Answers::refusal_answer))]
    fn from(refusal: Refusal) -> Answer {
        match refusal {
            Refusal::First(flaw) => Answer {
                number: flaw.fault.number(),
                place: flaw.place as u32,
            },
            Refusal::Second(flaw) => Answer {
                number: flaw.fault.number() + 10,
                place: flaw.place as u32,
            },
            Refusal::TooLong(needed) => Answer {
                number: 28,
                place: needed,
            },
        }
    }
}

// The list of two valid sheets: the first pass, into no room, tells its length.
#[tactic(auto, using(crate::proofs::Passes::merge_most), unfolding(crate::specs::Entered::enters))]
fn enter(first: &[u8], second: &[u8], list: &mut [u8]) -> Result<u32, Refusal>
    requires { (length first.now ≤ 2048) × (length second.now ≤ 2048) }
    ensures { listed (entered_answer result) list.new ≡ entered_of (merge_of first.now second.now) list.old }
{
    let needed = crate::merging::merge(&mut list[0..0], first, second);
    if list.len() < needed {
        return Err(Refusal::TooLong(needed as u32));
    }
    let length = crate::merging::merge(list, first, second);
    Ok(length as u32)
}

// What changed between two sheets: the length of the list, or a refusal that writes nothing.
pub fn difference(first: &[u8], second: &[u8], list: &mut [u8]) -> Result<u32, Refusal>
    ensures { listed (entered_answer result) list.new ≡ difference_of first.now second.now list.old }
{
    sheet::walk::check(first).map_err(Refusal::First)?;
    sheet::walk::check(second).map_err(Refusal::Second)?;
    enter(first, second, list)
}
