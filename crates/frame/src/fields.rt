// A command's fields out of its octets.
#![tactic(auto, unfolding(crate::specs::Fields::command_of, crate::specs::Places::place_of, crate::specs::Places::wdt_at, crate::specs::Places::one_or_two, crate::specs::Places::if_enhanced))]

ghost use Rattle.std.specs.Prelude.{◌≡◌};
ghost use Rattle.sheet.specs.declared.walk.Form.TheVariants.{Enhanced, Short};
ghost use Rattle.frame.specs.Fields.{command_of};
ghost use Rattle.frame.specs.Fielded.{fields_of};

use machine::words::Command;
use sheet::walk::Form;

// A command's fields by the octets that have them, and the address: one by one, as in an array the contract could not name them.
fn fields(
    code: u8,
    wdt: u8,
    control: u8,
    four: u8,
    five: u8,
    six: u8,
    seven: u8,
    address: u32,
) -> Command
    ensures { result ≡ fields_of code wdt control four five six seven address }
{
    let number = octets::le2(four, five);
    Command {
        code,
        wdt,
        identity: control / 64,
        number,
        size: six,
        item: four,
        offset: five,
        count: octets::le2(six, seven),
        mode: five,
        address,
        version: four,
        com_mod: five,
        com_time: six,
        profile: seven,
        alarm_mode: number,
    }
}

// An octet past the command's end counts as 0, so that at L 8 none past 7 is looked at. Every command of a slave has eight, and one test serves them all.
fn enhanced(command: &[u8]) -> Command
    ensures { result ≡ command_of Enhanced command.now }
{
    let address = octets::le4_at(command, 8);
    if let &[code, wdt, control, _, four, five, six, seven, ..] = command {
        return fields(code, wdt, control, four, five, six, seven, address);
    }
    fields(
        octets::octet(command, 0),
        octets::octet(command, 1),
        octets::octet(command, 2),
        octets::octet(command, 4),
        octets::octet(command, 5),
        octets::octet(command, 6),
        octets::octet(command, 7),
        address,
    )
}

// The short type's fields stand where the enhanced type's do, but for WDT. Control, octet 7 and address count as 0; there is no mode, and the alarm mode has one octet.
fn short(command: &[u8]) -> Command
    ensures { result ≡ command_of Short command.now }
{
    let four = octets::octet(command, 4);
    let six = octets::octet(command, 6);
    let same = fields(
        octets::octet(command, 0),
        octets::octet(command, 15),
        0,
        four,
        octets::octet(command, 5),
        six,
        0,
        0,
    );
    Command {
        mode: 0,
        alarm_mode: four as u16,
        ..same
    }
}

// The fields of a command of either type, which share no more than `fields` has.
pub fn command_of(form: Form, command: &[u8]) -> Command
    ensures { result ≡ command_of form command.now }
{
    match form {
        Form::Enhanced => enhanced(command),
        Form::Short => short(command),
    }
}
