// UTC and local time.
ghost use Rattle.std.specs.Prelude.{◌≡◌};
ghost use Rattle.refusal.specs.Results.{outcome_of};
ghost use Rattle.local_time.specs.Answers.{of_utc};
ghost use Rattle.answers_for_c.specs.Conversions.{local_for_c, utc_for_c};

use in_force::shown::UpToFour;
use refusal::Refusal;
use zone::ticks::{LocalTick, UtcTick};

#[repr(C)]
#[derive(Clone, Copy)]
pub struct LocalForC {
    pub refusal: u32,
    pub local: LocalTick,
}

// Up to four ticks, earliest first: those from `count` on are zero.
#[repr(C)]
#[derive(Clone, Copy)]
pub struct UtcForC {
    pub refusal: u32,
    pub count: u32,
    pub first: UtcTick,
    pub second: UtcTick,
    pub third: UtcTick,
    pub fourth: UtcTick,
}

impl From<Result<LocalTick, Refusal>> for LocalForC {
    ghost from_gives = { λ answer told. told ≡ local_for_c (outcome_of answer) };

    fn from(answer: Result<LocalTick, Refusal>) -> LocalForC {
        match answer {
            Ok(local) => LocalForC { refusal: 0, local },
            Err(why) => LocalForC {
                refusal: u32::from(why),
                local: LocalTick(0),
            },
        }
    }
}

impl From<Result<UpToFour<UtcTick>, Refusal>> for UtcForC {
    ghost from_gives = { λ answer told. told ≡ utc_for_c (of_utc answer) };

    fn from(answer: Result<UpToFour<UtcTick>, Refusal>) -> UtcForC {
        let zero = UtcTick(0);
        match answer {
            Ok(UpToFour::None) => UtcForC {
                refusal: 0,
                count: 0,
                first: zero,
                second: zero,
                third: zero,
                fourth: zero,
            },
            Ok(UpToFour::One(a)) => UtcForC {
                refusal: 0,
                count: 1,
                first: a,
                second: zero,
                third: zero,
                fourth: zero,
            },
            Ok(UpToFour::Two(a, b)) => UtcForC {
                refusal: 0,
                count: 2,
                first: a,
                second: b,
                third: zero,
                fourth: zero,
            },
            Ok(UpToFour::Three(a, b, c)) => UtcForC {
                refusal: 0,
                count: 3,
                first: a,
                second: b,
                third: c,
                fourth: zero,
            },
            Ok(UpToFour::Four(a, b, c, d)) => UtcForC {
                refusal: 0,
                count: 4,
                first: a,
                second: b,
                third: c,
                fourth: d,
            },
            Err(why) => UtcForC {
                refusal: u32::from(why),
                count: 0,
                first: zero,
                second: zero,
                third: zero,
                fourth: zero,
            },
        }
    }
}
