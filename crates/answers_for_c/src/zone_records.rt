// Registry and remote desktop records.
ghost use Rattle.std.specs.Prelude.{◌≡◌};
ghost use Rattle.refusal.specs.Results.{outcome_of};
ghost use Rattle.answers_for_c.specs.ZoneRecords.{rule_for_c, length_for_c, remote_told};

use refusal::Refusal;
use remote_desktop::RemoteDesktop;
use zone::rules::{Rule, no_rule};

#[repr(C)]
#[derive(Clone, Copy)]
pub struct RuleForC {
    pub refusal: u32,
    pub rule: Rule,
}

#[repr(C)]
#[derive(Clone, Copy)]
pub struct LengthForC {
    pub refusal: u32,
    pub length: usize,
}

// A name of a remote desktop record.
#[repr(C)]
#[derive(Clone, Copy)]
pub struct Name {
    pub bytes: [u8; 64],
}

#[repr(C)]
#[derive(Clone, Copy)]
pub struct RemoteDesktopForC {
    pub refusal: u32,
    pub rule: Rule,
    pub standard_name: Name,
    pub daylight_name: Name,
}

impl From<Result<Rule, Refusal>> for RuleForC {
    ghost from_gives = { λ answer told. told ≡ rule_for_c (outcome_of answer) };

    fn from(answer: Result<Rule, Refusal>) -> RuleForC {
        match answer {
            Ok(rule) => RuleForC { refusal: 0, rule },
            Err(why) => RuleForC {
                refusal: u32::from(why),
                rule: no_rule(),
            },
        }
    }
}

impl From<Result<usize, Refusal>> for LengthForC {
    ghost from_gives = { λ answer told. told ≡ length_for_c (outcome_of answer) };

    fn from(answer: Result<usize, Refusal>) -> LengthForC {
        match answer {
            Ok(length) => LengthForC { refusal: 0, length },
            Err(why) => LengthForC {
                refusal: u32::from(why),
                length: 0,
            },
        }
    }
}

impl From<Result<RemoteDesktop, Refusal>> for RemoteDesktopForC {
    ghost from_gives = { λ answer told. told ≡ remote_told answer };

    fn from(answer: Result<RemoteDesktop, Refusal>) -> RemoteDesktopForC {
        match answer {
            Ok(read) => {
                let standard_name = read.standard_name;
                let daylight_name = read.daylight_name;
                RemoteDesktopForC {
                    refusal: 0,
                    rule: read.rule,
                    standard_name: Name {
                        bytes: standard_name,
                    },
                    daylight_name: Name {
                        bytes: daylight_name,
                    },
                }
            }
            Err(why) => RemoteDesktopForC {
                refusal: u32::from(why),
                rule: no_rule(),
                standard_name: Name { bytes: [0; 64] },
                daylight_name: Name { bytes: [0; 64] },
            },
        }
    }
}
