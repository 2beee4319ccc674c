// Outlook's TZDEFINITION (source documents 000 and 001) over lent bytes: what it holds, its name, and the pieces that write it.
#![tactic(auto)]

pub mod answers;
pub mod header;
pub mod look;
pub mod name;
pub mod places;
pub mod rules;
pub mod walk;
pub mod writing;
