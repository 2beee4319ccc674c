// A look at a definition before its rules are read into a row: how many there are, and where the reading starts.
ghost use Rattle.std.specs.Prelude.{◌≡◌};
ghost use Rattle.refusal.specs.Results.{outcome_of};
ghost use Rattle.definition.specs.Places.{look_of};

use crate::answers::Look;
use crate::header::read_header;
use crate::places::first_kept;
use crate::walk::walk_body;
use refusal::Refusal;

// For a row with room for `room` rules.
pub fn look(bytes: &[u8], room: usize) -> Result<Look, Refusal>
    ensures { outcome_of result ≡ look_of bytes.now room }
{
    let h = read_header(bytes)?;
    let w = walk_body(bytes, h)?;
    if room < w.kept {
        return Err(Refusal::NoRoom);
    }
    let start = first_kept(bytes, 4 + h.size);
    Ok(Look {
        kept: w.kept,
        start,
    })
}
