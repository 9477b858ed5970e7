// A reply beside what is wanted of it.
ghost use Rattle.std.specs.Prelude.{◌≡◌, ◌≤◌, length};
ghost use Rattle.slave.specs.Wanted.{differs_at};

// The first octet at which a reply is not what is wanted; where there is none, how many are wanted.
fn first_other(reply: &[u8], wanted: &[u8]) -> u8
    requires { (length wanted.now ≤ length reply.now) × (length reply.now ≤ 64) }
    ensures { result ≡ differs_at reply.now wanted.now }
{
    let n = wanted.len();
    let mut pairs = reply[..n].iter().zip(wanted);
    pairs.position(|(x, y)| x != y).unwrap_or(n) as u8
}

// The same, without a search where the reply begins with what is wanted, as it mostly does: `starts_with` goes in steps of many octets. Up to 16 octets are
// searched at once: such steps would wait there for the reply's first octets, which have just been stored one by one.
pub fn differs(reply: &[u8], wanted: &[u8]) -> u8
    requires { (length wanted.now ≤ length reply.now) × (length reply.now ≤ 64) }
    ensures { result ≡ differs_at reply.now wanted.now }
{
    if 16 < wanted.len() && reply.starts_with(wanted) {
        return wanted.len() as u8;
    }
    first_other(reply, wanted)
}
