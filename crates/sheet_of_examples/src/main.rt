// The examples of document 01's sheet, and some by table (document 02, R-6), run on the library and printed. Inputs and labels are literals; every answer is computed.
#![tactic(auto)]

mod answers;
mod calendar_sheet;
mod fields;
mod lines;
mod numbers;
mod text;

fn main() {
    text::put(b"TIME counts ticks of 100 ns from 1601-01-01 00:00.\n");
    calendar_sheet::show();
}
