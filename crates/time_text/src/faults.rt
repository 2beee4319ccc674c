// What is wrong with a text that should say a time.
ghost use Rattle.std.specs.Prelude.{◌≡◌};
ghost use Rattle.time_text.specs.declared.faults.TextFault.TheVariants.{Refused};

use refusal::Refusal;

// A refusal is of a text that has the form of a time.
#[derive(Clone, Copy, PartialEq, Eq)]
pub enum TextFault {
    Refused(Refusal),
    NotATime,
}

impl From<Refusal> for TextFault {
    ghost from_gives = { λ why fault. fault ≡ Refused why };

    fn from(why: Refusal) -> TextFault {
        TextFault::Refused(why)
    }
}
