// Names: compared byte by byte or without regard to ASCII case, and taken apart at their colons.
ghost use Rattle.std.specs.Prelude.{◌≡◌};
ghost use Rattle.scan.specs.Names.{lower, same_bytes_of, same_folded, after_last_colon, after_first_colon, PartFrom};

// Are the two the same bytes? Their `==` is a call, and takes the film a tenth longer: names are short, and this loop is inlined.
pub fn same(a: &[u8], b: &[u8]) -> bool
    ensures { result ≡ same_bytes_of a.now b.now }
{
    if a.len() != b.len() {
        return false;
    }
    for i in 0..a.len() {
        if a[i] != b[i] {
            return false;
        }
    }
    true
}

// The byte, an ASCII capital as its small letter.
fn to_ascii_lowercase(b: u8) -> u8
    ensures { result ≡ lower b }
{
    match b {
        b'A'..=b'Z' => b + 32,
        _ => b,
    }
}

// Are the two the same but for the case of ASCII letters? By a loop for the same reason.
pub fn eq_ignore_ascii_case(a: &[u8], b: &[u8]) -> bool
    ensures { result ≡ same_folded a.now b.now }
{
    if a.len() != b.len() {
        return false;
    }
    for i in 0..a.len() {
        if to_ascii_lowercase(a[i]) != to_ascii_lowercase(b[i]) {
            return false;
        }
    }
    true
}

// Where the local part of a tag's name starts: after the last colon. The Rust also makes its letters
// small; here they are compared without regard to case instead.
pub fn tag_local(name: &[u8]) -> usize
    ensures { PartFrom name.now result (after_last_colon name.now) }
{
    name.iter().rposition(|&b| b == b':').map_or(0, |i| i + 1)
}

// Where a parameter's name starts: after the first colon, or at 0.
pub fn strip_ns(name: &[u8]) -> usize
    ensures { PartFrom name.now result (after_first_colon name.now) }
{
    name.iter().position(|&b| b == b':').map_or(0, |i| i + 1)
}
