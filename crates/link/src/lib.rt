// The link state: a struct by value, its steps as methods that hand it back, and the eleven octets of the state record.
#![tactic(auto)]

pub mod old; // old.rt: the state record of release 1, read for the turning call
pub mod state; // state.rt: the link state and its steps
pub mod stored; // stored.rt: the state record read, valid or not, and written whole
pub mod validity; // validity.rt: which states are valid
