// Refusals, by their number and the words of document 01's table; 20 and 22 by document 02's (R-2, R-9).
ghost use Rattle.std.specs.Prelude.{◌≡◌};
ghost use Rattle.ascii.specs.Text.{ascii};
ghost use Rattle.page.specs.Pages.{text_of, extended};
ghost use Rattle.words.specs.Refusals.{words_of, refusal_text};

use page::Page;
use refusal::Refusal;

fn put_words(page: Page, why: Refusal) -> Page
    ensures { text_of result ≡ extended (text_of page) (ascii (words_of why)) }
{
    match why {
        Refusal::PastTheBytes => page.put(
            b"a field, the header's stated size or a rule's stated size runs past the bytes",
        ),
        Refusal::WrongSize => page.put(
            b"a size is wrong, a fixed record has another length, bytes follow, or a name to be written is an odd number of bytes",
        ),
        Refusal::HeaderMajor => page.put(b"header major is not 2"),
        Refusal::HeaderFlags => page.put(b"header flags are not 0x0002"),
        Refusal::NameTooLong => page.put(b"name above 260 units"),
        Refusal::RuleCount => page.put(b"rule count 0 or above 1,024"),
        Refusal::UnusedNotZero => page.put(b"X not zero"),
        Refusal::RuleYear => page.put(
            b"rule year above 30827, or not above that of the kept rule before",
        ),
        Refusal::BiasOutOfRange => page.put(b"a bias that counts is out of range"),
        Refusal::BadDate => page.put(b"a set date breaks its rule"),
        Refusal::DatesDoNotMatch => page.put(
            b"one date set; or of two set dates one with a year and one without, or two years",
        ),
        Refusal::ActiveRules => page.put(b"not exactly one active rule, or the two bits differ"),
        Refusal::NoRoom => page.put(b"the row or the output is too short"),
        Refusal::IllFormedFields => page.put(b"fields ill formed"),
        Refusal::OutOfRange => page.put(
            b"TIME negative, result not expressible, UTC tick outside the window, local tick negative",
        ),
        Refusal::BeforeFirstRule => page.put(
            b"the tick, or a run's start, lies before the first rule's year",
        ),
        Refusal::RunOrder => page.put(
            b"b before a, or a before the tally's end (a run is from a to before b)",
        ),
        Refusal::BadTally => page.put(
            b"saved record of another length or kind, or a tally that does not hold",
        ),
        Refusal::LoneSurrogate => page.put(
            b"name with half a character: a high surrogate not directly followed by a low one, or a low one with no high one directly before it",
        ),
        Refusal::UnknownRevision => page.put(b"revision number neither 10 nor 12"),
    }
}

// To the end of the line.
pub fn put_refusal(page: Page, why: Refusal) -> Page
    ensures { text_of result ≡ extended (text_of page) (refusal_text why) }
{
    let page = page
        .put(b"refused ")
        .put_decimal(u64::from(u32::from(why)))
        .put(b": ");
    put_words(page, why).put(b"\n")
}
