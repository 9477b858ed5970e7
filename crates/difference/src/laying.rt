// Octets laid into the lent buffer for the list: what it has no room for is left out, so that a pass into no room counts.
ghost use Rattle.std.specs.Prelude.{◌≡◌, ◌+◌, ◌^◌, ◌<◌, ◌≤◌, [], ◌∷◌};
ghost use Rattle.difference.specs.Records.{cut};
ghost use Rattle.difference.specs.Laid.{laid_one};
ghost use Rattle.difference.specs.Moves.{Moves};

use crate::records::Place;

// One octet, at any place: it asks nothing of the place, which a cursor does.
#[tactic(auto, unfolding(crate::specs::Laid::laid_one, octets::specs::Pick::pick))]
pub fn lay(list: &mut [u8], at: usize, x: u8)
    ensures { list.new ≡ laid_one list.old at x }
{
    if at < list.len() {
        list[at] = x;
    }
}

// The lent buffer, and the place of the list's next octet. No ghost field bounds the place, since it moves on: what lays octets asks that they have places.
#[derive(Drop)]
pub struct Cursor<'a> {
    pub list: &'a mut [u8],
    pub at: usize,
}

impl Cursor<'_> {
    // One octet, and the place moves on.
    #[tactic(auto, unfolding(crate::specs::Laid::laid))]
    pub fn lay(&mut self, x: u8)
        requires { self.old.at + 1 < 2 ^ 64 }
        ensures { Moves self.old self.new (x ∷ []) }
    {
        lay(self.list, self.at, x);
        self.at += 1;
    }

    // So many octets of a record, from one of them on.
    pub fn lay_part(&mut self, record: Place, from: usize, n: usize)
        requires { (self.old.at + n < 2 ^ 64) × (from + n ≤ 64) }
        ensures { Moves self.old self.new (cut «record».entry.sheet.now («record».entry.at + from) n) }
    {
        for k in 0..n {
            self.lay(record.octet(from + k));
        }
    }
}
