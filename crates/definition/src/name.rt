// The name of a definition: the part of the lent bytes that holds it.
ghost use Rattle.std.specs.Prelude.{◌≡◌};
ghost use Rattle.definition.specs.Definition.{name_of};

use crate::header::read_header;
use crate::walk::walk_body;

// An empty part for bytes that reading refuses.
pub fn definition_name(bytes: &[u8]) -> &[u8]
    ensures { result.now ≡ name_of bytes.now }
{
    let Ok(h) = read_header(bytes) else {
        return &bytes[..0];
    };
    if walk_body(bytes, h).is_err() {
        return &bytes[..0];
    }
    &bytes[8..8 + 2 * h.units]
}
