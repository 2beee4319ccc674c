// What is kept in files: zone records, and tallies with the zone record and the tally from before the last booking beside them.
#![tactic(auto)]

pub mod beside;
pub mod tally_files;
pub mod zone_files;
