// The octets that a command does not name, and that must be zero from release 2 of the drive rules on (request 13).
ghost use Rattle.std.specs.Prelude.{◌≡◌, true, not, ◌||◌, ℕ, ◌*◌, ◌≤◌, ◌<◌, eqb, length, get_or};
ghost use Rattle.octets.specs.Numbers.{le2_at};
ghost use Rattle.machine.specs.Codes.{code_number};
ghost use Rattle.machine.specs.Judging.{element_of};
ghost use Rattle.frame.specs.Places.{echo_from, echo_size};
ghost use Rattle.frame.specs.Unnamed.{run, fields_at, written_at, in_run, is_named, unnamed_bits, stray_from, stray_of};
ghost use Rattle.frame.specs.Clear.{HeadClear, unnamed_end, behind_run, named_by, runs_of};

use machine::codes::Code;
use machine::words::Carrier;
use sheet::walk::Form;

// Octets of a command: the first, and how many.
#[derive(Clone, Copy)]
pub struct Run {
    pub first: usize,
    pub many: usize,
}

impl Run {
    // No octets: they stand nowhere behind the head.
    const NONE: Run = Run { first: 4, many: 0 };

    // Whether an octet is one of these.
    #[tactic(auto, using(crate::proofs::Strays::run_before, crate::proofs::Strays::run_here))]
    fn has(self, k: usize) -> bool
        ensures { result ≡ in_run self k }
    {
        self.first <= k && k - self.first < self.many
    }

    // Where the run ends, and the part behind it begins; of a run that is too long to stand in a command, at the command's end.
    #[tactic(auto, unfolding(octets::specs::Pick::pick, crate::specs::Clear::behind_run))]
    fn behind(self, l: usize) -> usize
        ensures { result ≡ behind_run self l }
    {
        self.first.saturating_add(self.many).min(l)
    }
}

// The fields of a parameter or memory command: those that its reply has again.
fn carrier_fields(form: Form, by: Carrier) -> Run
    ensures { result ≡ run (echo_from by) (echo_size form by) }
{
    Run {
        first: crate::places::echo_from(by),
        many: crate::places::echo_size(form, by),
    }
}

// The fields of a command.
#[tactic(auto, unfolding(octets::specs::Pick::pick, crate::specs::Unnamed::fields_at, crate::specs::Places::fields_end))]
fn fields_at(form: Form, code: Code) -> Run
    ensures { result ≡ fields_at form (code_number code) }
{
    match code {
        Code::PrmRd | Code::PrmWr => carrier_fields(form, Carrier::Parameter),
        Code::MemRd | Code::MemWr => carrier_fields(form, Carrier::Memory),
        Code::IdRd | Code::Connect => Run {
            first: 4,
            many: crate::places::fields_end(form) - 4,
        },
        Code::AlmRd | Code::AlmClr => Run {
            first: 4,
            many: crate::places::mode_size(form),
        },
        Code::Nop | Code::SyncSet | Code::Disconnect => Run::NONE,
    }
}

// The octets that MEM_WR writes, by the command alone.
fn memory_size(command: &[u8]) -> usize
    ensures { result ≡ le2_at command.now 6 * element_of (get_or command.now 5 0) }
{
    let count = octets::le2(octets::octet(command, 6), octets::octet(command, 7));
    let width = machine::judging::element(octets::octet(command, 5));
    count as usize * width as usize
}

// The data that a command writes.
#[tactic(auto, unfolding(octets::specs::Pick::pick, crate::specs::Unnamed::written_at))]
fn written_at(form: Form, code: Code, command: &[u8]) -> Run
    ensures { result ≡ written_at form (code_number code) command.now }
{
    match code {
        Code::PrmWr => Run {
            first: crate::places::data_from(form, Carrier::Parameter),
            many: octets::octet(command, 6) as usize,
        },
        Code::MemWr => Run {
            first: crate::places::data_from(form, Carrier::Memory),
            many: memory_size(command),
        },
        _ => Run::NONE,
    }
}

// What must be zero of an octet that is not named.
#[tactic(auto, unfolding(octets::specs::Pick::pick, crate::specs::Unnamed::unnamed_bits))]
fn bits(form: Form, k: usize, x: u8) -> u8
    ensures { result ≡ unnamed_bits form k x }
{
    match form {
        Form::Enhanced if k == 2 => x % 64,
        _ => x,
    }
}

// Whether octets from one up to another are known to be zero.
#[tactic(auto, using(crate::proofs::Clear::part_zero))]
fn zero_between(command: &[u8], from: usize, to: usize) -> bool
    ensures { result ≡ true → (k : ℕ) → from ≤ k → k < to → get_or command.now k 0 ≡ 0 }
{
    match command.get(from..to) {
        Some(part) => octets::zeros(part),
        None => to <= from,
    }
}

// Whether the octets before the fields, which every command of the type has, are known to be what they may be.
#[tactic(auto, unfolding(crate::specs::Clear::HeadClear))]
fn head_clear(form: Form, command: &[u8]) -> bool
    ensures { result ≡ true → HeadClear form command.now }
{
    match form {
        Form::Enhanced => {
            (octets::octet(command, 2) % 64 == 0) & (octets::octet(command, 3) == 0)
        }
        Form::Short => zero_between(command, 1, 4),
    }
}

// Where the octets that a command could name end: in the short type WDT stands behind them.
#[tactic(auto, unfolding(octets::specs::Pick::pick, crate::specs::Clear::unnamed_end))]
fn end_of(form: Form, l: usize) -> usize
    ensures { result ≡ unnamed_end form l }
{
    match form {
        Form::Short if l == 16 => 15,
        _ => l,
    }
}

// What a command names: its type says what all commands do, its code which fields it has and what it writes.
#[derive(Clone, Copy)]
struct Names {
    form: Form,
    fields: Run,
    written: Run,
}

impl Names {
    // What a command of a type names. A code that no command has names nothing of its own.
    #[tactic(auto, using(crate::proofs::Names::nothing_named, crate::proofs::Names::nothing_written), unfolding(crate::specs::Clear::named_by))]
    fn by(form: Form, command: &[u8]) -> Names
        ensures { result ≡ named_by form command.now }
    {
        match Code::try_from(octets::octet(command, 0)) {
            Ok(code) => Names {
                form,
                fields: fields_at(form, code),
                written: written_at(form, code, command),
            },
            Err(_) => Names {
                form,
                fields: Run::NONE,
                written: Run::NONE,
            },
        }
    }

    // Whether an octet is named: by every command of the type, or by this one.
    #[tactic(auto, unfolding(crate::specs::Unnamed::names_for, crate::specs::Unnamed::is_named))]
    fn has(self, k: usize) -> bool
        ensures { result ≡ is_named (runs_of self) k }
    {
        let own = self.fields.has(k) | self.written.has(k);
        match self.form {
            Form::Enhanced => Run { first: 0, many: 2 }.has(k) | own,
            Form::Short => Run { first: 0, many: 1 }.has(k)
                | (Run { first: 15, many: 1 }.has(k) | own),
        }
    }

    // Whether an octet is neither named nor zero. Most octets are zero, and of those no more is asked.
    fn strays(self, k: usize, x: u8) -> bool
        ensures { result ≡ not (is_named (runs_of self) k || eqb (unnamed_bits self.form k x) 0) }
    {
        bits(self.form, k, x) != 0 && !self.has(k)
    }

    // The first octet that is neither named nor zero; 0 where there is none.
    #[tactic(auto, using(crate::proofs::Strays::stray_next, crate::proofs::Strays::stray_here_lem, crate::proofs::Strays::stray_end))]
    fn first_stray(self, command: &[u8]) -> u8
        requires { length command.now ≤ 255 }
        ensures { result ≡ stray_from self.form (runs_of self) 0 command.now }
    {
        for (k, &x) in command.iter().enumerate() {
            if self.strays(k, x) {
                return k as u8;
            }
        }
        0
    }

    // Whether a command is known to have no stray octet: all that it does not name is zero, part by part, in steps of many octets.
    fn is_clear(self, command: &[u8]) -> bool
        ensures { result ≡ true → stray_from self.form (runs_of self) 0 command.now ≡ 0 }
    {
        let l = command.len();
        let first = self.fields.behind(l);
        let last = first.max(self.written.behind(l));
        head_clear(self.form, command)
            & zero_between(command, 4, self.fields.first)
            & zero_between(command, first, self.written.first)
            & zero_between(command, last, end_of(self.form, l))
    }
}

// The first octet of a command that should be zero and is not; 0 where there is none, and always in release 1.
#[tactic(auto, unfolding(octets::specs::Pick::pick, crate::specs::Unnamed::stray_of, crate::specs::Unnamed::stray_as, crate::specs::Clear::named_by))]
pub fn stray(form: Form, release: u8, command: &[u8]) -> u8
    requires { length command.now ≤ 255 }
    ensures { result ≡ stray_of form release command.now }
{
    if release != 2 {
        return 0;
    }
    let names = Names::by(form, command);
    if names.is_clear(command) {
        return 0;
    }
    names.first_stray(command)
}
