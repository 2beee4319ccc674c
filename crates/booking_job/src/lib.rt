// A booking from its bytes: the zone file's, the tally file's and the log's, to the record that is to be written and the text that is to be shown. Nothing here calls the system.
#![tactic(auto)]

pub mod booking;
pub mod tallies;
pub mod zone_text;
