// Whether our machine's watchdog fails at a command, and why, in one line: whether that is tolerated, and MN and SN as they had to be, and as they came.
// All of it is seen before the exchange, since that changes the state record.
use sheet::walk::Form;
use std::fmt;

// A failure behind so many in a row, and how many the sheet tolerates.
#[derive(Clone, Copy)]
struct Failure {
    behind: u8,
    tolerance: u8,
}

// Which one in a row it is, by the number itself; of a sheet that tolerates none there is nothing to say.
impl fmt::Display for Failure {
    fn fmt<W: fmt::Write>(&self, f: &mut fmt::Formatter<W>) -> fmt::Result {
        match self.tolerance {
            most if self.behind < most => {
                let n = self.behind as u16 + 1;
                write!(f, "tolerated, {n} of {most} in a row: ")
            }
            1 => write!(f, "the 2nd in a row, 1 is tolerated: "),
            2 => write!(f, "the 3rd in a row, 2 are tolerated: "),
            3 => write!(f, "the 4th in a row, 3 are tolerated: "),
            _ => Ok(()),
        }
    }
}

// The line, by the state record before the exchange; a command that the watchdog takes, or that it is not asked of, has none.
pub fn print_failed(rt: &impl Print, form: Form, state: &[u8], command: &[u8], tolerance: u8) {
    let st = link::stored::fields(state);
    let watch = st.watch;
    let c = frame::fields::command_of(form, command);
    if st.link != link::state::SYNC_CONNECTED || watch.follows(c.wdt) {
        return;
    }
    let failure = Failure {
        behind: watch.failures,
        tolerance,
    };
    let _ = println!(rt;
        "ours failed the watchdog: {failure}MN {} expected, {} seen; SN {} expected, {} seen",
        (watch.last as u16 + 1) % 16,
        c.wdt % 16,
        watch.rsn,
        c.wdt / 16
    );
}
