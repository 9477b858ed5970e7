// One pass over both sheets.
ghost use Rattle.std.specs.Prelude.{◌≡◌, ◌+◌, ◌^◌, ◌<◌, ◌≤◌, length, not};
ghost use Rattle.difference.specs.Merge.{step_of, at_end, merge_of};
ghost use Rattle.difference.specs.Entered.{entered, enters, turned, turns_to};

use crate::laying::Cursor;
use crate::records::Place;
use std::cmp::Ordering;

// The places behind a turn: in the first sheet, in the second, and in the list.
#[derive(Clone, Copy)]
pub struct Turn {
    pub first: usize,
    pub second: usize,
    pub list: usize,
}

// One turn: of the two records that are next, that which comes first in the order, or both.
fn take_turn(list: &mut [u8], first: &[u8], second: &[u8], from: Turn) -> Turn
    requires { (from.list + 40 < 2 ^ 64) × (from.first ≤ 4096) × (from.second ≤ 4096) }
    ensures { turned result list.new ≡ turns_to list.old from.list (step_of first.now from.first second.now from.second) }
{
    let a = Place {
        sheet: first,
        at: from.first,
    };
    let b = Place {
        sheet: second,
        at: from.second,
    };
    let mut list = Cursor {
        list,
        at: from.list,
    };
    let (first, second) = match a.rank().cmp(&b.rank()) {
        Ordering::Less => {
            crate::entries::gone(&mut list, a);
            (a.behind(), b.at)
        }
        Ordering::Greater => {
            crate::entries::new(&mut list, b);
            (a.at, b.behind())
        }
        Ordering::Equal => {
            crate::entries::both(&mut list, a, b);
            (a.behind(), b.behind())
        }
    };
    Turn {
        first,
        second,
        list: list.at,
    }
}

// Whether either sheet has a record left, at any places.
fn more(first: &[u8], second: &[u8], from: Turn) -> bool
    ensures { result ≡ not (at_end first.now from.first second.now from.second) }
{
    (crate::records::kind_at(first, from.first) != 0)
        | (crate::records::kind_at(second, from.second) != 0)
}

// The list of two sheets, laid into the buffer as far as it goes; its length.
pub fn merge(list: &mut [u8], first: &[u8], second: &[u8]) -> usize
    requires { (length first.now ≤ 2048) × (length second.now ≤ 2048) }
    ensures { entered result list.new ≡ enters list.old 0 (merge_of first.now second.now) }
{
    // A turn passes a record of either sheet or of both, so that no iterator counts the turns.
    let mut behind = Turn {
        first: 0,
        second: 0,
        list: 0,
    };
    while more(first, second, behind) {
        behind = take_turn(list, first, second, behind);
    }
    behind.list
}
