// The prolog: blanks, `<? ?>`, comments and other `<! >`, as far as they go.
ghost use Rattle.std.specs.Prelude.{◌≡◌, [], ◌∷◌, ◌+◌, ◌≤◌, length, get_or};
ghost use Rattle.tree.specs.Read.{prolog_from};
ghost use Rattle.scan.specs.Bytes.{blank};
ghost use Rattle.scan.specs.Marks.{starts_at};
ghost use Rattle.scan.specs.Posts.{Ends};

use scan::Class;

// The byte at a position, and 0 at the text's end.
pub fn byte_at(src: &[u8], pos: usize) -> u8
    requires { pos ≤ length src.now }
    ensures { result ≡ get_or src.now pos 0 }
{
    if pos < src.len() { src[pos] } else { 0 }
}

// Whether a byte stands after the one at a position.
pub fn follows(src: &[u8], pos: usize, byte: u8) -> bool
    requires { pos ≤ length src.now }
    ensures { result ≡ starts_at src.now (pos + 1) (byte ∷ []) }
{
    pos + 1 < src.len() && src[pos + 1] == byte
}

// The place after the blanks at a position.
pub fn over_blanks(src: &[u8], pos: usize) -> usize
    requires { pos ≤ length src.now }
    ensures { Ends blank src.now pos result }
{
    scan::over_far(src, pos, Class::Blank)
}

// The place after the prolog at a position, where no blank stands.
pub fn skip_prolog(src: &[u8], pos: usize) -> usize
    requires { pos ≤ length src.now }
    ensures { (result ≡ prolog_from src.now pos) × (result ≤ length src.now) }
{
    let mut i = pos;
    while i < src.len() {
        if scan::starts_with(src, i, b"<?") {
            let q = scan::find_past(src, i, b"?>");
            i = scan::over(src, q, Class::Blank);
        } else if scan::starts_with(src, i, b"<!--") {
            let q = scan::find_past(src, i, b"-->");
            i = scan::over(src, q, Class::Blank);
        } else if scan::starts_with(src, i, b"<!") {
            let q = scan::find_past(src, i, b">");
            i = scan::over(src, q, Class::Blank);
        } else {
            return i;
        }
    }
    i
}
