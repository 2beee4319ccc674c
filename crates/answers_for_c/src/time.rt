// TIME, its fields and seconds.
ghost use Rattle.std.specs.Prelude.{◌≡◌};
ghost use Rattle.refusal.specs.Results.{outcome_of};
ghost use Rattle.answers_for_c.specs.Time.{absolute_for_c, fields_for_c, time_for_c, seconds_for_c};

use calendar::fields::TimeFields;
use refusal::Refusal;

#[repr(C)]
#[derive(Clone, Copy)]
pub struct AbsoluteForC {
    pub refusal: u32,
    pub absolute: bool,
}

#[repr(C)]
#[derive(Clone, Copy)]
pub struct FieldsForC {
    pub refusal: u32,
    pub fields: TimeFields,
}

#[repr(C)]
#[derive(Clone, Copy)]
pub struct TimeForC {
    pub refusal: u32,
    pub time: i64,
}

#[repr(C)]
#[derive(Clone, Copy)]
pub struct SecondsForC {
    pub refusal: u32,
    pub seconds: u32,
}

impl From<Result<bool, Refusal>> for AbsoluteForC {
    ghost from_gives = { λ answer told. told ≡ absolute_for_c (outcome_of answer) };

    fn from(answer: Result<bool, Refusal>) -> AbsoluteForC {
        match answer {
            Ok(absolute) => AbsoluteForC {
                refusal: 0,
                absolute,
            },
            Err(why) => AbsoluteForC {
                refusal: u32::from(why),
                absolute: false,
            },
        }
    }
}

impl From<Result<TimeFields, Refusal>> for FieldsForC {
    ghost from_gives = { λ answer told. told ≡ fields_for_c (outcome_of answer) };

    fn from(answer: Result<TimeFields, Refusal>) -> FieldsForC {
        match answer {
            Ok(fields) => FieldsForC { refusal: 0, fields },
            Err(why) => FieldsForC {
                refusal: u32::from(why),
                fields: TimeFields {
                    year: 0,
                    month: 0,
                    day: 0,
                    hour: 0,
                    minute: 0,
                    second: 0,
                    milliseconds: 0,
                    weekday: 0,
                },
            },
        }
    }
}

impl From<Result<i64, Refusal>> for TimeForC {
    ghost from_gives = { λ answer told. told ≡ time_for_c (outcome_of answer) };

    fn from(answer: Result<i64, Refusal>) -> TimeForC {
        match answer {
            Ok(time) => TimeForC { refusal: 0, time },
            Err(why) => TimeForC {
                refusal: u32::from(why),
                time: 0,
            },
        }
    }
}

impl From<Result<u32, Refusal>> for SecondsForC {
    ghost from_gives = { λ answer told. told ≡ seconds_for_c (outcome_of answer) };

    fn from(answer: Result<u32, Refusal>) -> SecondsForC {
        match answer {
            Ok(seconds) => SecondsForC {
                refusal: 0,
                seconds,
            },
            Err(why) => SecondsForC {
                refusal: u32::from(why),
                seconds: 0,
            },
        }
    }
}
