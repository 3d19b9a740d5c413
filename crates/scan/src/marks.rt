// Marks: fixed byte strings that stand at a place, and their first places.
ghost use Rattle.std.specs.Prelude.{◌≡◌, ◌≤◌, length};
ghost use Rattle.scan.specs.Posts.{Marked, Found, Passed};

// Does the mark stand at the place? By `==`: std's `starts_with` takes longer.
pub fn starts_with(src: &[u8], pos: usize, mark: &[u8]) -> bool
    requires { pos ≤ length src.now }
    ensures { Marked mark.now src.now pos result }
{
    mark.len() <= src.len() - pos && &src[pos..pos + mark.len()] == mark
}

// The first place of the mark, or the length: where its last byte stands it is compared.
pub fn find_seq(src: &[u8], pos: usize, mark: &[u8]) -> usize
    requires { pos ≤ length src.now }
    ensures { Found mark.now src.now pos result }
{
    if mark.is_empty() {
        return pos;
    }
    let n = mark.len() - 1;
    let mut i = pos;
    while n < src.len() - i {
        if src[i + n] == mark[n] {
            if starts_with(src, i, mark) {
                return i;
            }
            i += 1;
        } else {
            i = crate::bytes::find_far(src, i + n + 1, mark[n]) - n;
        }
    }
    src.len()
}

// The place after the first mark, or the length.
pub fn find_past(src: &[u8], pos: usize, mark: &[u8]) -> usize
    requires { pos ≤ length src.now }
    ensures { Passed mark.now src.now pos result }
{
    let i = find_seq(src, pos, mark);
    if i < src.len() {
        i + mark.len()
    } else {
        src.len()
    }
}
