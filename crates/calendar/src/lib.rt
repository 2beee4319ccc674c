// TIME and its fields: source document 004 (NT OS/2 Time Conversion Specification, revisions 1.0 and 1.2) and document 01.
// TIME is a signed 64-bit count of ticks of 100 ns from 1601-01-01 00:00.
#![tactic(auto)]

pub mod absolute;
pub mod calendars;
pub mod fields;
pub mod ranges;
pub mod revisions;
pub mod seconds;
pub mod signed;
