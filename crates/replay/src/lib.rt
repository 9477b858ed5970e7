// The replay of a fitter's trace (document 02, request 6).
#![tactic(auto)]

pub mod answers; // answers.rt: why a replay stops
pub mod form; // form.rt: what stands at a place of a trace
pub mod reader; // reader.rt: a trace and a place in it, which hands out one record at a time
pub mod whole; // whole.rt: the form of a whole trace
pub mod step; // step.rt: one record beside our machine's reply
pub mod playing; // playing.rt: all records, and the refusals before them
