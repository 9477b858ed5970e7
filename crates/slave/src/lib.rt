// The slave's calls: total on every input, in document 01's order of refusals. Only this crate knows the lengths of lent buffers.
#![tactic(auto)]

pub mod answers; // answers.rt: what a call tells
pub mod calls; // calls.rt: reset and enable
pub mod checked; // checked.rt: a valid sheet beside its layout
mod wanted; // wanted.rt: a reply beside what is wanted of it
pub mod exchanging; // exchanging.rt: one exchange
pub mod turning; // turning.rt: an old state record becomes a new one
