// The machine: a sheet, a link state and a command by value give an outcome. No octet of a PDU is known here.
#![tactic(auto)]

pub mod codes; // codes.rt: the command codes, and which link allows which
pub mod connecting; // connecting.rt: the data checks of CONNECT
pub mod judging; // judging.rt: checks 2 to 5, command by command
pub mod outcome; // outcome.rt: check 1, the latches and the watchdog around them
pub mod spans; // spans.rt: checks 4 and 5 over a span, for parameters and for memory
pub mod words; // words.rt: a command by value, and what comes of it
