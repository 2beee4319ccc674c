// Zone P of document 01's sheet, read from its registry record: Bias -60, StandardBias 0, DaylightBias -60, standard from the last Sunday of
// October 03:00, daylight from the last Sunday of March 02:00.
use records::registry::read_registry;
use refusal::Refusal;
use zone::rules::Rule;

pub fn rule() -> Result<Rule, Refusal> {
    read_registry(
        b"\xC4\xFF\xFF\xFF\0\0\0\0\xC4\xFF\xFF\xFF\
        \0\0\x0A\0\0\0\x05\0\x03\0\0\0\0\0\0\0\
        \0\0\x03\0\0\0\x05\0\x02\0\0\0\0\0\0\0",
    )
}
