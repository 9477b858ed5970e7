// The process engineer's programs: a sheet in words, record by record, and what changed between two sheets.
#![tactic(auto)]

pub mod compare; // compare.rt: what changed between the sheets of two files
pub mod dump; // dump.rt: a whole sheet in words
mod changes; // changes.rt: a list of differences in words
mod faults; // faults.rt: a sheet's fault in words
mod fields; // fields.rt: what a record says, field by field
mod records; // records.rt: the kinds of record, their fields, keys and names
