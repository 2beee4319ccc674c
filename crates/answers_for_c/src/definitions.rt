// Definitions: Outlook's TZDEFINITION.
ghost use Rattle.std.specs.Prelude.{◌≡◌};
ghost use Rattle.refusal.specs.Results.{outcome_of};
ghost use Rattle.answers_for_c.specs.Definitions.{count_for_c, part_of};

use refusal::Refusal;

#[repr(C)]
#[derive(Clone, Copy)]
pub struct CountForC {
    pub refusal: u32,
    pub count: usize,
}

// A part of the lent bytes.
#[repr(C)]
#[derive(Clone, Copy)]
pub struct Part {
    pub at: usize,
    pub length: usize,
}

impl From<Result<usize, Refusal>> for CountForC {
    ghost from_gives = { λ answer told. told ≡ count_for_c (outcome_of answer) };

    fn from(answer: Result<usize, Refusal>) -> CountForC {
        match answer {
            Ok(count) => CountForC { refusal: 0, count },
            Err(why) => CountForC {
                refusal: u32::from(why),
                count: 0,
            },
        }
    }
}

// Where a name of this length stands.
pub fn part_for_c(length: usize) -> Part
    ensures { result ≡ part_of length }
{
    if length == 0 {
        return Part { at: 0, length: 0 };
    }
    Part { at: 8, length }
}
