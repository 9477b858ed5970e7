// The PDU of both types: a command's fields out of its octets, and a reply's octets and the memory's out of an outcome.
#![tactic(auto)]

pub mod body; // body.rt: the reply's body and what enters the memory
pub mod fields; // fields.rt: a command's fields
pub mod head; // head.rt: the reply's head
pub mod places; // places.rt: where things stand in each type
pub mod unnamed; // unnamed.rt: the octets that a command does not name
