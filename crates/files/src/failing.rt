// Why a file cannot be opened, in the system's words.
ghost use Rattle.std.specs.Prelude.{◌≤◌};

use std::{fmt, io, str};

// The front of a text, as far as there is room for it: an array and how much of it is used, since no program has a heap for a String.
#[derive(Drop)]
struct Front {
    text: [u8; 128],
    n: usize,
    ghost within: { n ≤ 128 },
}

impl fmt::Write for Front {
    fn write_str(&mut self, s: &str) -> fmt::Result {
        for octet in s.as_bytes() {
            if self.n < self.text.len() {
                self.text[self.n] = *octet;
                self.n += 1;
            }
        }
        Ok(())
    }
}

// The words in front of the number that the library puts behind them.
fn words(text: &str) -> &str {
    text.split_once(" (os error ")
        .map_or(text, |(front, _)| front)
}

// A line on standard error: a file, and why it cannot be opened.
pub fn fail(rt: &impl Eprint, name: &str, error: &io::Error) {
    let mut front = Front {
        text: [0; 128],
        n: 0,
    };
    let _ = fmt::Write::write_fmt(&mut front, format_args!("{error}"));
    let text = str::from_utf8(&front.text[..front.n]).unwrap_or("");
    let why = words(text);
    let _ = eprintln!(rt; "{name}: {why}");
}
