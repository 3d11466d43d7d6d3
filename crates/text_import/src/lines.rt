// The lines of a text, one by one.
ghost use Rattle.std.specs.Prelude.{◌≡◌, ◌<◌, ◌∷◌, Some};
ghost use Rattle.text_import.specs.inner.Lines.{lines_left, size_left};

use memchr::memchr;

// The first line of a text, and what follows its line feed, if it has one.
#[derive(Clone, Copy)]
pub(crate) struct FirstLine<'a> {
    pub(crate) line: &'a [u8],
    pub(crate) behind: Option<&'a [u8]>,
}

pub(crate) fn first_line<'a>(text: &'a [u8]) -> FirstLine<'a>
    ensures line { lines_left (Some text.entry) ≡ result.line.now ∷ lines_left result.behind }
    ensures less { size_left result.behind < size_left (Some text.entry) }
{
    match memchr(b'\n', text) {
        Some(end) => FirstLine {
            line: &text[..end],
            behind: Some(&text[end + 1..]),
        },
        None => FirstLine {
            line: text,
            behind: None,
        },
    }
}
