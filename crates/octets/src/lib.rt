// Octets and the numbers made of them: the one place where octets of a lent slice become numbers, and where lent parts are filled. Octets and a place in them go
// side by side: an octet past the end counts as 0 (`get_or`), which a slice that begins at the place could not say.
#![tactic(auto)]

ghost use Rattle.std.specs.Prelude.{◌≡◌, ◌+◌, ◌≤◌, length, get_or, replicate};
ghost use Rattle.octets.specs.Numbers.{le2, le4, le4_at};
ghost use Rattle.octets.specs.Parts.{copied, put_at, all_zero};

// The octet at `i`; past the end it counts as 0.
pub fn octet(s: &[u8], i: usize) -> u8
    ensures { result ≡ get_or s.now i 0 }
{
    s.get(i).copied().unwrap_or(0)
}

// A number of 2 octets, low octet first.
pub fn le2(a: u8, b: u8) -> u16
    ensures { result ≡ le2 a b }
{
    u16::from_le_bytes([a, b])
}

// A number of 4 octets, low octet first.
pub fn le4(a: u8, b: u8, c: u8, d: u8) -> u32
    ensures { result ≡ le4 a b c d }
{
    u32::from_le_bytes([a, b, c, d])
}

// The number of 4 octets at `i`; octets past the end count as 0. Where all four are there, one load reads them.
pub fn le4_at(s: &[u8], i: u32) -> u32
    ensures { result ≡ le4_at s.now i }
{
    let at = i as usize;
    if s.len() < at + 4 {
        return le4(
            octet(s, at),
            octet(s, at + 1),
            octet(s, at + 2),
            octet(s, at + 3),
        );
    }
    le4(s[at], s[at + 1], s[at + 2], s[at + 3])
}

// Whether every octet of a part is 0. It goes through them all, since a loop that is not left early is compiled into steps of many octets.
pub fn zeros(s: &[u8]) -> bool
    ensures { result ≡ all_zero s.now }
{
    let mut so_far = true;
    for x in s {
        so_far &= *x == 0;
    }
    so_far
}

// Every octet of a lent part becomes `v`.
pub fn fill(d: &mut [u8], v: u8)
    ensures { d.new ≡ replicate (length d.old) v }
{
    for x in d.iter_mut() {
        *x = v;
    }
}

// The octets of `s` enter the lent part at its front, as far as it goes; the octets behind them stay. One by one, so that the archive calls no memmove of its host's.
pub fn copy(d: &mut [u8], s: &[u8])
    ensures { d.new ≡ copied d.old s.now }
{
    for i in 0..d.len().min(s.len()) {
        d[i] = s[i];
    }
}

// The octets of `s` enter `d` at `at`: just the part that they fill is lent, from its first octet to its last, and nothing before or after is touched.
#[tactic(auto, using(crate::proofs::Parts::filled_part), unfolding(crate::specs::Parts::put_at))]
pub fn put(d: &mut [u8], at: usize, s: &[u8])
    requires { at + length s.now ≤ length d.old }
    ensures { d.new ≡ put_at d.old at s.now }
{
    let to = at + s.len();
    copy(&mut d[at..to], s);
}
