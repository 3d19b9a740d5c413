// Text alignment.
ghost use Rattle.std.specs.Prelude.{◌≡◌};
ghost use Rattle.utf8.specs.White.{trimmed};
ghost use Rattle.track.specs.Alignment.{align_word};

use crate::values::Align;

// The alignment that a word is; any other is as none.
fn align_word(word: &[u8]) -> Align
    ensures { result ≡ align_word word.now }
{
    if scan::eq_ignore_ascii_case(word, b"end") {
        return Align::End;
    }
    if scan::eq_ignore_ascii_case(word, b"center") {
        return Align::Center;
    }
    if scan::eq_ignore_ascii_case(word, b"left") {
        return Align::Left;
    }
    if scan::eq_ignore_ascii_case(word, b"right") {
        return Align::Right;
    }
    Align::Start
}

// The same of a value, white space around it passed over.
pub fn parse_text_align(value: &[u8]) -> Align
    ensures { result ≡ align_word (trimmed value.now) }
{
    let span = utf8::trim(value);
    let start = span.start;
    let end = span.end;
    align_word(&value[start..end])
}
