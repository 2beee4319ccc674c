// What is wrong with a line of a log.
ghost use Rattle.std.specs.Prelude.{◌≡◌};
ghost use Rattle.log_lines.specs.Faults.{fault_of};

use refusal::Refusal;
use time_text::faults::TextFault;

// No line by itself is too long: its log says so.
#[derive(Clone, Copy)]
pub enum Fault {
    Refused(Refusal),
    NotATime,
    NotTwoTimes,
    TooLong,
}

impl From<TextFault> for Fault {
    ghost from_gives = { λ of fault. fault ≡ fault_of of };

    fn from(of: TextFault) -> Fault {
        match of {
            TextFault::Refused(why) => Fault::Refused(why),
            TextFault::NotATime => Fault::NotATime,
        }
    }
}
