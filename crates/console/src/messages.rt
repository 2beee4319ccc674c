// What the tool says on standard error.
use crate::output::write_page;
use crate::system_words::system_words;
use page::Page;
use refusal::Refusal;
use std::io::Error;
use words::refusals::put_refusal;

const STANDARD_ERROR: i32 = 2;

pub fn say(text: &[u8]) {
    io::write_all(STANDARD_ERROR, text);
}

pub fn say_number(n: u64) {
    io::print_decimal(STANDARD_ERROR, n);
}

pub fn say_name(name: &[u8]) {
    say(b"hours: ");
    say(name);
    say(b": ");
}

// A line that names a file or a word, and says what is wrong with it.
pub fn complain(name: &[u8], why: &[u8]) {
    say_name(name);
    say(why);
    say(b"\n");
}

// A call on a file that failed, with the system's words.
pub fn complain_of_call(name: &[u8], error: &Error) {
    let mut words = [0u8; 256];
    let n = system_words(error, &mut words);
    complain(name, &words[..n]);
}

// The number of a refusal and the paper's words for it, to the end of the line.
pub fn say_refusal(why: Refusal) {
    write_page(STANDARD_ERROR, put_refusal(Page::blank(), why));
}

pub fn complain_of_refusal(name: &[u8], why: Refusal) {
    say_name(name);
    say_refusal(why);
}

// The place of a line in a log.
pub fn say_line(name: &[u8], line: u64) {
    say_name(name);
    say(b"line ");
    say_number(line);
    say(b": ");
}

pub fn say_fault_count(name: &[u8], faults: u64) {
    say_name(name);
    say_number(faults);
    if faults == 1 {
        say(b" wrong line; nothing is booked\n");
        return;
    }
    say(b" wrong lines; nothing is booked\n");
}
