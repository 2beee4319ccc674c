// Scripts: many calls on a tally, in one call.
ghost use Rattle.std.specs.Prelude.{◌≡◌, length};
ghost use Rattle.tally.specs.Answers.{no_tally};
ghost use Rattle.script.specs.Scripts.{script_outcome, tally_told, buffer_left, log_left};
ghost use Rattle.answers_for_c.specs.Tallies.{tally_for_c};

use answers_for_c::tallies::TallyForC;
use script::{ScriptCall, run_script};
use zone::rules::Rule;

#[unsafe(no_mangle)]
pub extern "C" fn dohlenwerk_run_script(
    row: &[Rule],
    calls: &[ScriptCall],
    buffer: &mut [u8],
    log: &mut [u8],
) -> TallyForC
    ensures { (result ≡ tally_for_c (tally_told (script_outcome row.now calls.now buffer.old (length log.old))) no_tally) × ((buffer.new ≡ buffer_left (script_outcome row.now calls.now buffer.old (length log.old)) buffer.old) × (log.new ≡ log_left (script_outcome row.now calls.now buffer.old (length log.old)) log.old)) }
{
    TallyForC::from(run_script(row, calls, buffer, log))
}
