// What the tool shows on standard output.
use crate::messages::complain_of_call;
use page::Page;

// What could not be shown; why was said.
#[derive(Clone, Copy, Debug, PartialEq, Eq)]
pub struct NotShown;

pub fn show_text(rt: &HostRuntime, text: &[u8]) -> Result<(), NotShown> {
    rt.write_all(text).map_err(|error| {
        complain_of_call(b"standard output", &error);
        NotShown
    })
}

// A page, written out.
pub fn write_page(fd: i32, page: Page) -> bool {
    io::write_all(fd, &page.bytes[..page.count()])
}

pub fn show(rt: &HostRuntime, page: Page) -> Result<(), NotShown> {
    show_text(rt, &page.bytes[..page.count()])
}
