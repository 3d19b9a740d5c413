// The text of a question.
ghost use Rattle.std.specs.Prelude.{◌≤◌, length};

// Do further pieces of the same text follow?
pub fn is_part(line: &[u8]) -> bool {
    matches!(line, [b'+', ..])
}

// How many bytes of the text the next line goes on with.
pub fn carried(line: &[u8], laid: usize) -> usize
    ensures { result ≤ laid }
{
    if is_part(line) { laid } else { 0 }
}

// The line's bytes, after so many of the text: how many it has then.
pub fn lay_line(line: &[u8], text: &mut [u8], at: usize) -> usize
    requires { at ≤ length text.old }
    ensures { result ≤ length text.old }
{
    let mut given = [0u8; 512];
    let mut told = [0u8; 512];
    let fields = replaying::read_line(line, &mut given, &mut told);
    let kind = fields.kind;
    match kind {
        b'p' | b'c' | b'w' => lay(&given[..fields.given], text, at),
        b'P' | b'C' | b'W' | b'+' => lay_pieces(&given[..fields.given], text, at),
        _ => at,
    }
}

// A piece, or nothing if it does not fit.
fn lay(piece: &[u8], text: &mut [u8], at: usize) -> usize
    requires { at ≤ length text.old }
    ensures { result ≤ length text.old }
{
    if text.len() - at < piece.len() {
        return at;
    }
    scan::copy(piece, text, at)
}

fn lay_pieces(pieces: &[u8], text: &mut [u8], at: usize) -> usize
    requires { at ≤ length text.old }
    ensures { result ≤ length text.old }
{
    let mut next = at;
    let mut rest = pieces;
    while let [high, low, len, behind @ ..] = rest {
        let Some((piece, others)) = behind.split_at_checked(usize::from(*len)) else {
            return next;
        };
        let count = u16::from_be_bytes([*high, *low]);
        next = lay_often(piece, count, text, next);
        rest = others;
    }
    next
}

fn lay_often(piece: &[u8], count: u16, text: &mut [u8], at: usize) -> usize
    requires { at ≤ length text.old }
    ensures { result ≤ length text.old }
{
    let mut next = at;
    for _ in 0..count {
        next = lay(piece, text, next);
    }
    next
}
