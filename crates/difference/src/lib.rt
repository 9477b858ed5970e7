// What changed between two sheets: one pass over both where the caller holds them, without a table.
#![tactic(auto)]

pub mod entries; // entries.rt: what is listed of a record that is gone, new or changed
pub mod laying; // laying.rt: octets laid into the lent buffer, as far as it goes
pub mod merging; // merging.rt: the pass over both sheets
pub mod records; // records.rt: a record's kind, size, order and fields
pub mod whole; // whole.rt: the call, with its refusals
