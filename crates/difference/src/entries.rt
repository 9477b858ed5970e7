// What is listed of a record. A key has 4 octets at most, and a body 34. Gone and new list another part under another number each, in two lines, and one function
// that is told both would be no plainer.
ghost use Rattle.std.specs.Prelude.{◌+◌, ◌^◌, ◌<◌};
ghost use Rattle.difference.specs.Merge.{gone_of, new_of, changed_of, both_of};
ghost use Rattle.difference.specs.Moves.{Moves};

use crate::laying::Cursor;
use crate::records::Place;

// A record that is gone: its key.
pub fn gone(list: &mut Cursor, record: Place)
    requires { list.old.at + 5 < 2 ^ 64 }
    ensures { Moves list.old list.new (gone_of «record».entry.sheet.now «record».entry.at) }
{
    list.lay(64 + record.kind());
    list.lay_part(record, 1, record.key_width());
}

// A record that is new: its body.
pub fn new(list: &mut Cursor, record: Place)
    requires { list.old.at + 35 < 2 ^ 64 }
    ensures { Moves list.old list.new (new_of «record».entry.sheet.now «record».entry.at) }
{
    list.lay(80 + record.kind());
    list.lay_part(record, 1, record.body());
}

// A record of which fields changed, if any did: their bits, and the body as it is now.
fn changed(list: &mut Cursor, bits: u8, record: Place)
    requires { list.old.at + 36 < 2 ^ 64 }
    ensures { Moves list.old list.new (changed_of bits «record».entry.sheet.now «record».entry.at) }
{
    if bits == 0 {
        return;
    }
    list.lay(96 + record.kind());
    list.lay(bits);
    list.lay_part(record, 1, record.body());
}

// Two records at one place of the order.
pub fn both(list: &mut Cursor, first: Place, second: Place)
    requires { list.old.at + 40 < 2 ^ 64 }
    ensures { Moves list.old list.new (both_of first.entry.sheet.now first.entry.at second.entry.sheet.now second.entry.at) }
{
    let kind = first.kind();
    if kind == second.kind() {
        let bits = first.bits(second, kind);
        return changed(list, bits, second);
    }
    gone(list, first);
    new(list, second);
}
