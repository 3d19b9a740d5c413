// The words of a line, which single blanks divide.
ghost use Rattle.std.specs.Prelude.{◌≤◌, ◌<◌, length};

use numerals::Whole;

// standard output
const STDOUT_FILENO: i32 = 1;

// The line's first byte and its third, or 0.
pub fn first(line: &[u8]) -> u8 {
    match line {
        [b, ..] => *b,
        [] => 0,
    }
}

pub fn third(line: &[u8]) -> u8 {
    match line {
        [_, _, b, ..] => *b,
        _ => 0,
    }
}

// Where the word that begins at a place ends.
pub fn word_end(line: &[u8], from: usize) -> usize
    ensures { result ≤ length line.now }
{
    if line.len() < from {
        return line.len();
    }
    scan::find_byte(line, from, b' ')
}

// The number that the word from a place on spells, or 0.
pub fn number_at(line: &[u8], from: usize) -> u32 {
    let end = word_end(line, from);
    if end < from {
        return 0;
    }
    number_of(numerals::read_numeral(&line[from..end], 10, 4294967295, false))
}

fn number_of(n: Option<Whole>) -> u32 {
    n.map_or(0, |w| u32::try_from(w.magnitude).unwrap_or(0))
}

// The second number of words `T CELL VALUE`.
pub fn second_number(line: &[u8]) -> u32 {
    let end = word_end(line, 2);
    if end < line.len() {
        number_at(line, end + 1)
    } else {
        0
    }
}

// Where the words after these begin, or the line's end.
pub fn after_second(line: &[u8]) -> usize
    requires { 0 < length line.now }
    ensures { (0 < result) × (result ≤ length line.now) }
{
    let cell = word_end(line, 2);
    if line.len() <= cell {
        return line.len();
    }
    let end = word_end(line, cell + 1);
    if line.len() <= end {
        return line.len();
    }
    end + 1
}

// The rest of a line on which an answer stands.
pub fn print_answer(number: u32) {
    io::write_all(STDOUT_FILENO, b": ");
    io::print_decimal(STDOUT_FILENO, number as u64);
    io::write_all(STDOUT_FILENO, b"\n");
}
