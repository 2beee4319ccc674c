// Tallies: booking, saving, reading back.
ghost use Rattle.std.specs.Prelude.{◌≡◌, length};
ghost use Rattle.refusal.specs.Lent.{written, lent_after};
ghost use Rattle.tally.specs.Tallies.{fresh, holds};
ghost use Rattle.tally.specs.Booking.{book};
ghost use Rattle.tally.specs.Saved.{save_tally, read_tally};
ghost use Rattle.tally.specs.Answers.{no_tally};
ghost use Rattle.answers_for_c.specs.Tallies.{tally_for_c};
ghost use Rattle.answers_for_c.specs.ZoneRecords.{length_for_c};

use answers_for_c::tallies::TallyForC;
use answers_for_c::zone_records::LengthForC;
use tally::tallies::Tally;
use zone::rules::Rule;
use zone::ticks::UtcTick;

#[unsafe(no_mangle)]
pub extern "C" fn dohlenwerk_fresh_tally() -> Tally
    ensures { result ≡ fresh }
{
    Tally::fresh()
}

#[unsafe(no_mangle)]
pub extern "C" fn dohlenwerk_tally_holds(tally: Tally) -> bool
    ensures { result ≡ holds tally }
{
    tally.holds().holds
}

#[unsafe(no_mangle)]
pub extern "C" fn dohlenwerk_book(
    tally: Tally,
    row: &[Rule],
    from: UtcTick,
    to: UtcTick,
) -> TallyForC
    ensures { result ≡ tally_for_c (book row.now tally from to) tally }
{
    TallyForC::from(tally.book(row, from, to))
}

#[unsafe(no_mangle)]
pub extern "C" fn dohlenwerk_save_tally(tally: Tally, out: &mut [u8]) -> LengthForC
    ensures value { result ≡ length_for_c (written (save_tally tally (length out.old))) }
    ensures out_after { out.new ≡ lent_after (save_tally tally (length out.old)) out.old }
{
    LengthForC::from(tally.save(out).answer)
}

#[unsafe(no_mangle)]
pub extern "C" fn dohlenwerk_read_tally(bytes: &[u8]) -> TallyForC
    ensures { result ≡ tally_for_c (read_tally bytes.now) no_tally }
{
    TallyForC::from(Tally::read(bytes))
}
