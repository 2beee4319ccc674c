// The tool `hours`, which is built of this program. Its sample: the runs of a week are booked in zone P of document 01, and the sheet is shown.
#![tactic(auto)]

use std::process::ExitCode;

fn main(rt: HostRuntime) -> ExitCode {
    hours::hours_status(&rt)
}
