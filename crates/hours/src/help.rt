// What `--help` and `--version` show.
use console::output::{NotShown, show_text};

const HELP: [&[u8]; 22] = [
    b"hours: running time by local weekday\n\n",
    b"hours new [--as KIND] ZONE TALLY                  begin a tally, with nothing booked\n",
    b"hours book [--csv] [--as KIND] ZONE TALLY [LOG]   book the runs of LOG on TALLY, show the sheet\n",
    b"hours undo [--csv] TALLY                          put back TALLY from before the last booking, once\n",
    b"hours sheet [--csv] TALLY                         show the sheet of TALLY\n",
    b"hours zone [--as KIND] ZONE                       say a zone record in words\n",
    b"hours local [--as KIND] ZONE TIME...              the local time of each UTC time\n",
    b"hours utc [--as KIND] ZONE LOCAL...               every UTC time that shows a local time\n",
    b"hours fields [--revision 10|12] TIME...           date, time and weekday of a TIME\n",
    b"hours time [--revision 10|12] TIME...             the TIME number of a time\n",
    b"\nZONE   a registry record (TZI), a remote desktop record or Outlook's TZDEFINITION, raw or as hex text;\n",
    b"       KIND is registry, remote-desktop or definition, where more than one reader accepts it\n",
    b"TALLY  the saved tally, 68 bytes. Its zone record is kept beside it as TALLY.zone, and the tally from before\n",
    b"       the last booking as TALLY.old. A booking in another zone is refused, and one without a tally\n",
    b"LOG    a run a line: two UTC times, its start and its end, which does not count; - is standard input.\n",
    b"       Blank lines and comments from # on are passed over. Where a line is wrong, nothing is booked\n",
    b"TIME   2023-03-26T00:00:00Z, with up to 7 digits of a fraction, or ticks of 100 ns since 1601\n",
    b"       second 60 is taken at 23:59 on the last day of a month; --revision 10 goes by 1.0 of the NT OS/2 time paper: it is refused\n",
    b"LOCAL  the same without the Z\n",
    b"\nExit status: 0; 1 refused, or a file can't be read or written: nothing is booked; 2 wrong usage;\n",
    b"3 another booking is at work: try again; 4 booked, but the sheet could not be shown;\n",
    b"5 booked, but it may not survive a power cut\n",
];

// Each line is written, also where one before it could not be.
pub fn show_help(rt: &HostRuntime) -> Result<(), NotShown> {
    HELP.iter()
        .fold(Ok(()), |shown, line| shown.and(show_text(rt, line)))
}

pub fn show_version(rt: &HostRuntime) -> Result<(), NotShown> {
    show_text(rt, b"hours 0.2.0\n")
}
