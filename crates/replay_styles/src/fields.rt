// The fields of a line.
ghost use Rattle.std.specs.Prelude.{◌≡◌, ◌≤◌, length};

use replaying::Line;

// The byte at a place, or 0 past the end.
pub fn byte(bytes: &[u8], at: usize) -> u8 {
    bytes.get(at).map_or(0, |b| *b)
}

// The number that a word spells, or 0.
pub fn number(word: &[u8]) -> u32 {
    numerals::read_numeral(word, 10, 4294967295, false).map_or(
        0,
        |w| u32::try_from(w.magnitude).unwrap_or(0),
    )
}

pub fn is_question(line: &[u8]) -> bool {
    matches!(byte(line, 0), b'V' | b'R' | b'C')
}

// How many cells the table of ids is lent: the first byte of a question says it.
pub fn lent(line: &[u8]) -> usize
    ensures { result ≤ 128 }
{
    if byte(line, 3) == b'0' { 8 } else { 128 }
}

fn no_question() -> Line
    ensures { (result.given ≡ 0) × (result.told ≡ 0) }
{
    Line {
        whole: false,
        kind: 0,
        given: 0,
        told: 0,
    }
}

// A question: what is given after the first byte, and what is told. Nothing is told, which is no answer, if the line is too long
// for the tables.
pub fn question(line: &[u8], given: &mut [u8], told: &mut [u8]) -> Line
    ensures { (result.given ≤ length given.old) × (result.told ≤ length told.old) }
{
    if line.len() < 4 || 4096 < line.len() {
        return no_question();
    }
    let gap = scan::find_byte(line, 4, b' ');
    if line.len() <= gap {
        return no_question();
    }
    let n = replaying::unhex(&line[4..gap], given);
    let m = replaying::unhex(&line[gap + 1..], told);
    Line {
        whole: true,
        kind: line[0],
        given: n,
        told: m,
    }
}
