// Why a call is refused, and the number of each refusal: by document 01's table; 20 and 22 by document 02 (R-2, R-9).
#![tactic(auto)]

ghost use Rattle.std.specs.Prelude.{◌≡◌};
ghost use Rattle.refusal.specs.Number.{number_of};

#[derive(Clone, Copy, PartialEq, Eq)]
pub enum Refusal {
    PastTheBytes,
    WrongSize,
    HeaderMajor,
    HeaderFlags,
    NameTooLong,
    RuleCount,
    UnusedNotZero,
    RuleYear,
    BiasOutOfRange,
    BadDate,
    DatesDoNotMatch,
    ActiveRules,
    NoRoom,
    IllFormedFields,
    OutOfRange,
    BeforeFirstRule,
    RunOrder,
    BadTally,
    LoneSurrogate,
    UnknownRevision,
}

// The number of a refusal, for callers that know no enum.
impl From<Refusal> for u32 {
    ghost from_gives = { λ why n. n ≡ number_of why };

    fn from(why: Refusal) -> u32 {
        match why {
            Refusal::PastTheBytes => 1,
            Refusal::WrongSize => 2,
            Refusal::HeaderMajor => 3,
            Refusal::HeaderFlags => 4,
            Refusal::NameTooLong => 5,
            Refusal::RuleCount => 6,
            Refusal::UnusedNotZero => 7,
            Refusal::RuleYear => 8,
            Refusal::BiasOutOfRange => 9,
            Refusal::BadDate => 10,
            Refusal::DatesDoNotMatch => 11,
            Refusal::ActiveRules => 12,
            Refusal::NoRoom => 13,
            Refusal::IllFormedFields => 14,
            Refusal::OutOfRange => 15,
            Refusal::BeforeFirstRule => 16,
            Refusal::RunOrder => 17,
            Refusal::BadTally => 18,
            Refusal::LoneSurrogate => 20,
            Refusal::UnknownRevision => 22,
        }
    }
}
