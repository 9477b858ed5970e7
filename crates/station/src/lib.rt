// The bench station: a slave on a sheet of a file and on commands of standard input. It starts with reset, enable and zero memory, and prints
// each reply as one line of upper-case hex; a last piece shorter than L prints CUT; a refused sheet prints SHEET, number and place.
#![tactic(auto)]

use sheet::walk::Layout;
use std::io::Read;
use std::rt::Files;
use std::{fs, io};

// A slave: its sheet, its state record and its memory.
#[derive(Drop)]
struct Unit<'a> {
    sheet: &'a [u8],
    state: &'a mut [u8],
    memory: &'a mut [u8],
}

impl Unit<'_> {
    // Commands in lent room of L octets, each answered in as much, to the end of the input or as long as a reply can be written. A proved loop has to end, so
    // it counts to a number that no run uses up.
    fn serve(
        &mut self,
        rt: &impl Print,
        input: &mut impl Read,
        command: &mut [u8],
        reply: &mut [u8],
    ) -> io::Result<()> {
        for _ in 0..u64::MAX {
            let got = files::read_full(input, command);
            if got == 0 {
                return Ok(());
            }
            if got < command.len() {
                return println!(rt; "CUT");
            }
            let _ = slave::exchanging::exchange(
                self.sheet,
                self.state,
                self.memory,
                command,
                reply,
            );
            hexline::print_hex(rt, reply)?;
        }
        Ok(())
    }
}

// A slave on a valid sheet, from reset on; there is room for every valid one.
fn start(rt: &impl Print, input: &mut impl Read, sheet: &[u8], layout: Layout) -> io::Result<()> {
    // Fixed room for any sheet, as the program allocates nothing.
    let mut state = [0u8; 11];
    let mut memory = [0u8; 65536];
    let mut command = [0u8; 64];
    let mut reply = [0u8; 64];
    let n = layout.memory as usize;
    let l = layout.l as usize;
    let (Some(memory), Some(command), Some(reply)) = (
        memory.get_mut(..n),
        command.get_mut(..l),
        reply.get_mut(..l),
    ) else {
        return Ok(());
    };
    let _ = slave::calls::reset(sheet, &mut state);
    let _ = slave::calls::enable(sheet, &mut state);
    let mut unit = Unit {
        sheet,
        state: &mut state,
        memory,
    };
    unit.serve(rt, input, command, reply)
}

// The bench run on a sheet that was read.
fn bench(rt: &impl Print, input: &mut impl Read, sheet: &[u8]) -> io::Result<()> {
    match sheet::walk::check(sheet) {
        Ok(layout) => start(rt, input, sheet, layout),
        Err(flaw) => println!(rt; "SHEET {} {}", flaw.fault.number(), flaw.place),
    }
}

// The whole bench run.
pub fn run<R: Files + Print + Eprint>(rt: &R, input: &mut impl Read) {
    // Fixed room, as the program allocates nothing.
    let mut sheet = [0u8; 4096];
    let n = match fs::open(rt, "sheet.bin") {
        Ok(mut file) => files::read_full(&mut file, &mut sheet),
        Err(error) => {
            files::failing::fail(rt, "sheet.bin", &error);
            return;
        }
    };
    let _ = bench(rt, input, &sheet[..n]);
}
