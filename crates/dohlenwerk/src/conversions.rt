// UTC and local time.
ghost use Rattle.std.specs.Prelude.{◌≡◌};
ghost use Rattle.local_time.specs.LocalTime.{utc_to_local, local_to_utc};
ghost use Rattle.answers_for_c.specs.Conversions.{local_for_c, utc_for_c};

use answers_for_c::conversions::{LocalForC, UtcForC};
use local_time::to_local::utc_to_local;
use local_time::to_utc::local_to_utc;
use zone::rules::Rule;
use zone::ticks::{LocalTick, UtcTick};

#[unsafe(no_mangle)]
pub extern "C" fn dohlenwerk_utc_to_local(row: &[Rule], utc: UtcTick) -> LocalForC
    ensures { result ≡ local_for_c (utc_to_local row.now utc) }
{
    LocalForC::from(utc_to_local(row, utc))
}

#[unsafe(no_mangle)]
pub extern "C" fn dohlenwerk_local_to_utc(row: &[Rule], local: LocalTick) -> UtcForC
    ensures { result ≡ utc_for_c (local_to_utc row.now local) }
{
    UtcForC::from(local_to_utc(row, local))
}
