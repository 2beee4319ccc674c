// A second calendar (document 02, R-6): it looks a year up in a table of the 400 years of a cycle, whereas crate `days` finds it by blocks of years and a closed form.
// Its two calls, in `fields`, are those of `calendar` by this calendar, with the contracts of the two by blocks.
#![tactic(auto)]

pub mod dates;
pub mod fields;
pub mod table;
pub mod years;
