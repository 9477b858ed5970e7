// The device sheet: its records, the walk that reads it, its faults with their places, and what is looked up in it.
#![tactic(auto)]

pub mod device; // device.rt: a sheet beside its layout
pub mod entries; // entries.rt: parameters and ID items, by index, by number and by code
pub mod judging; // judging.rt: a record's fields judged
pub mod kinds; // kinds.rt: the kinds of record, their sizes and their order
pub mod reading; // reading.rt: one record's reading, a record or a fault
pub mod records; // records.rt: faults, counts, and what a reading answers
pub mod walk; // walk.rt: the walk from record to record, and the verdict on a whole sheet
