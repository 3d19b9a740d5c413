#![tactic(auto)]
// What the programs that replay recorded answers of the Rust have in common: a line read, and lines
// counted. A line is a kind, the bytes that were given and the bytes that the Rust answered, in
// hexadecimal, `-` for none.
ghost use Rattle.std.specs.Prelude.{IfSome, ◌≡◌, ◌+◌, ◌^◌, ◌≤◌, ◌<◌, length};

// standard output
const STDOUT_FILENO: i32 = 1;

#[derive(Clone, Copy)]
pub struct Tally {
    pub agree: u64,
    pub differ: u64,
}

// A line's kind, and how many bytes were given and told. What is no such line, or is too long for
// the tables, is not whole.
#[derive(Clone, Copy)]
pub struct Line {
    pub whole: bool,
    pub kind: u8,
    pub given: usize,
    pub told: usize,
}

pub fn no_lines() -> Tally
    ensures { (result.agree ≡ 0) × (result.differ ≡ 0) }
{
    Tally {
        agree: 0,
        differ: 0,
    }
}

// One line counted, and printed if it differs; an empty one and a remark do not count.
pub fn counted(tally: Tally, line: &[u8], agrees: bool) -> Tally
    requires { tally.agree + tally.differ < 2 ^ 63 }
    ensures { result.agree + result.differ ≤ tally.agree + tally.differ + 1 }
{
    if matches!(line, [] | [b'#', ..]) {
        return tally;
    }
    if agrees {
        return Tally {
            agree: tally.agree + 1,
            ..tally
        };
    }
    io::write_all(STDOUT_FILENO, line);
    io::write_all(STDOUT_FILENO, b"\n");
    Tally {
        differ: tally.differ + 1,
        ..tally
    }
}

pub fn print_tally(tally: Tally) {
    io::print_decimal(STDOUT_FILENO, tally.agree);
    io::write_all(STDOUT_FILENO, b" agree, ");
    io::print_decimal(STDOUT_FILENO, tally.differ);
    io::write_all(STDOUT_FILENO, b" differ\n");
}

// The line's fields, at the start of both tables.
pub fn read_line(line: &[u8], given: &mut [u8], told: &mut [u8]) -> Line
    ensures { (result.given ≤ length given.old) × (result.told ≤ length told.old) }
{
    if !(4..=1024).contains(&line.len()) {
        return no_line();
    }
    let gap = scan::find_byte(line, 2, b' ');
    if line.len() <= gap {
        return no_line();
    }
    let n = unhex(&line[2..gap], given);
    let m = unhex(&line[gap + 1..], told);
    Line {
        whole: true,
        kind: line[0],
        given: n,
        told: m,
    }
}

fn no_line() -> Line
    ensures { (result.given ≡ 0) × (result.told ≡ 0) }
{
    Line {
        whole: false,
        kind: 0,
        given: 0,
        told: 0,
    }
}

// The bytes that a field of hexadecimal digits spells, as many as fit.
pub fn unhex(field: &[u8], out: &mut [u8]) -> usize
    ensures { result ≤ length out.old }
{
    let most = out.len().min(field.len() / 2);
    for n in 0..most {
        let Some(high) = nibble(field[2 * n]) else {
            return n;
        };
        let Some(low) = nibble(field[2 * n + 1]) else {
            return n;
        };
        out[n] = high * 16 + low;
    }
    most
}

// A hexadecimal digit's value; `char::to_digit` takes capitals too.
fn nibble(b: u8) -> Option<u8>
    ensures { IfSome result (λ x. x < 16) }
{
    match b {
        b'0'..=b'9' => Some(b - b'0'),
        b'a'..=b'f' => Some(b - b'a' + 10),
        _ => None,
    }
}
