// Where things stand in a PDU of each type: the numbers of the two, side by side, a table each and no conversion; a trait with a constant for each would hide that.
#![tactic(auto, unfolding(crate::specs::Places::place_of, crate::specs::Places::own_alarm_at, crate::specs::Places::fields_end, crate::specs::Places::alarms_at, crate::specs::Places::mode_size, crate::specs::Places::data_from, crate::specs::Places::echo_from, crate::specs::Places::echo_size))]

ghost use Rattle.std.specs.Prelude.{◌≡◌};
ghost use Rattle.frame.specs.Places.{place_of, own_alarm_at, fields_end, alarms_at, mode_size, data_from, echo_from, echo_size};

use machine::words::{Carrier, Field};
use sheet::walk::Form;

// The octet at which a field begins; of a span that lacks a right, the octets before the first that lacks it.
pub fn place_of(field: Field) -> u8
    ensures { result ≡ place_of field }
{
    match field {
        Field::Whole => 0,
        Field::Number => 4,
        Field::Size => 6,
        Field::Item => 4,
        Field::Count => 6,
        Field::Mode => 5,
        Field::Address => 8,
        Field::Version => 4,
        Field::ComMod => 5,
        Field::ComTime => 6,
        Field::Profile => 7,
        Field::AlarmMode => 4,
        Field::Stray(at) => at,
        Field::Span(before) => before,
    }
}

// Where a reply has its own command's alarm, in the octet's low half.
pub fn own_alarm_at(form: Form) -> usize
    ensures { result ≡ own_alarm_at form }
{
    match form {
        Form::Enhanced => 3,
        Form::Short => 1,
    }
}

// Where the named fields end, and data begins.
pub fn fields_end(form: Form) -> usize
    ensures { result ≡ fields_end form }
{
    match form {
        Form::Enhanced => 8,
        Form::Short => 7,
    }
}

// Where ALM_RD's reply has the latches.
pub fn alarms_at(form: Form) -> usize
    ensures { result ≡ alarms_at form }
{
    match form {
        Form::Enhanced => 8,
        Form::Short => 5,
    }
}

// How many octets the alarm commands' mode has.
pub fn mode_size(form: Form) -> usize
    ensures { result ≡ mode_size form }
{
    match form {
        Form::Enhanced => 2,
        Form::Short => 1,
    }
}

// Where a carrier's data begins.
pub fn data_from(form: Form, by: Carrier) -> usize
    ensures { result ≡ data_from form by }
{
    match by {
        Carrier::Parameter => fields_end(form),
        Carrier::Memory => fields_end(form) + 4,
    }
}

// The fields of a carrier's command that stand in the reply again: from where, and how many octets.
pub fn echo_from(by: Carrier) -> usize
    ensures { result ≡ echo_from by }
{
    match by {
        Carrier::Parameter => 4,
        Carrier::Memory => 5,
    }
}

pub fn echo_size(form: Form, by: Carrier) -> usize
    ensures { result ≡ echo_size form by }
{
    match by {
        Carrier::Parameter => 3,
        Carrier::Memory => fields_end(form) - 1,
    }
}
