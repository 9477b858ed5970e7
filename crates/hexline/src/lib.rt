// Octets as upper-case hex, for the programs.
#![tactic(auto)]

use std::{fmt, io, str};

const DIGITS: &[u8; 16] = b"0123456789ABCDEF";

// So many octets have room in a line, which is fixed, as no program allocates.
const OCTETS: usize = 64;

// The two digits of each octet, from the front of a line on, as far as it goes.
fn lay(octets: &[u8], line: &mut [u8]) {
    for (pair, octet) in line.chunks_exact_mut(2).zip(octets) {
        pair[0] = DIGITS[(octet / 16) as usize];
        pair[1] = DIGITS[(octet % 16) as usize];
    }
}

// A line of up to 64 octets, in one write: a reply by `Hex` would go octet by octet through the buffer that formats have.
pub fn print_hex(rt: &impl Print, octets: &[u8]) -> io::Result<()> {
    let mut line = [b'\n'; 2 * OCTETS + 1];
    let n = octets.len().min(OCTETS);
    lay(octets, &mut line);
    rt.write_all(&line[..2 * n + 1])
}

// Octets of which each is shown with two digits.
#[derive(Clone, Copy)]
pub struct Hex<'a>(pub &'a [u8]);

// A line's digits at a time: a number formatted for each octet took eight times as long.
impl fmt::Display for Hex<'_> {
    fn fmt<W: fmt::Write>(&self, f: &mut fmt::Formatter<W>) -> fmt::Result {
        for octets in self.0.chunks(OCTETS) {
            let mut line = [0u8; 2 * OCTETS];
            lay(octets, &mut line);
            let digits = line.get(..2 * octets.len()).unwrap_or(&[]);
            f.write_str(str::from_utf8(digits).unwrap_or(""))?;
        }
        Ok(())
    }
}
