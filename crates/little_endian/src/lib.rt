// Numbers as bytes, the least significant one first: the fields of a record, read and written.
// specs/ has the definitions, and proofs/ laws of them that hold at every width.
#![tactic(auto)]

pub mod fields;
pub mod twos_complement;
