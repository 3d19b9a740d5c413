// Strings of a track: places and lengths in a table of bytes. `bytes` is the used part of that table.
ghost use Rattle.std.specs.Prelude.{◌≡◌};
ghost use Rattle.track.specs.Meaning.{is_span, is_optional};

#[derive(Clone, Copy)]
pub struct Span {
    pub place: usize,
    pub len: usize,
}

// Does a string stand there: within the used bytes, from the start of a character to that of one?
#[tactic(auto, unfolding(crate::specs::Meaning::is_span))]
pub fn is_span(bytes: &[u8], place: usize, len: usize) -> bool
    ensures { result ≡ is_span bytes.now place len }
{
    place <= bytes.len()
        && len <= bytes.len() - place
        && utf8::is_boundary(bytes, place)
        && utf8::is_boundary(bytes, place + len)
}

// The same of a string that may be absent.
pub fn is_optional(bytes: &[u8], flag: usize, place: usize, len: usize) -> bool
    ensures { result ≡ is_optional bytes.now flag place len }
{
    match flag {
        0 => true,
        1 => is_span(bytes, place, len),
        _ => false,
    }
}
