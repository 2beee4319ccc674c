// TIME to fields and back, by the table.
ghost use Rattle.std.specs.Prelude.{◌≡◌};
ghost use Rattle.refusal.specs.Results.{outcome_of};
ghost use Rattle.calendar.specs.Fields.{time_to_fields, fields_to_time};

use crate::dates::ByTable;
use calendar::fields::{TimeFields, fields_to_time_by, time_to_fields_by};
use refusal::Refusal;

// The fields of a TIME: the answer of `time_to_fields`, refusals too.
pub fn time_to_fields_by_table(revision: u32, time: i64) -> Result<TimeFields, Refusal>
    ensures { outcome_of result ≡ time_to_fields revision time }
{
    time_to_fields_by::<ByTable>(revision, time)
}

// The TIME of fields: the answer of `fields_to_time`, refusals too.
pub fn fields_to_time_by_table(revision: u32, fields: TimeFields) -> Result<i64, Refusal>
    ensures { outcome_of result ≡ fields_to_time revision fields }
{
    fields_to_time_by::<ByTable>(revision, fields)
}
