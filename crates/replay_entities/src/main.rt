#![tactic(auto)]
// Replays recorded answers of the Rust: the list on standard input says how it was made. Prints each
// line that this library answers otherwise, and the counts.
ghost use Rattle.std.specs.Prelude.{◌≡◌, ◌≤◌, length};

use replaying::Tally;

// standard input
const STDIN_FILENO: i32 = 0;

fn main() {
    let mut space = [0u8; 262144];
    let got = io::read_full(STDIN_FILENO, &mut space);
    replaying::print_tally(replay(&space[..got]));
}

// Every line of the list.
fn replay(list: &[u8]) -> Tally {
    let mut tally = replaying::no_lines();
    let mut pos = 0;
    while pos < list.len() {
        let end = scan::find_byte(list, pos, b'\n');
        tally = replaying::counted(tally, &list[pos..end], agrees(&list[pos..end]));
        pos = end + 1;
    }
    tally
}

// Does this library answer what the line says?
fn agrees(line: &[u8]) -> bool {
    let mut given = [0u8; 512];
    let mut told = [0u8; 512];
    let mut made = [0u8; 3072];
    let fields = replaying::read_line(line, &mut given, &mut told);
    if !fields.whole {
        return false;
    }
    let k = answer(fields.kind, &given[..fields.given], &mut made);
    told[..fields.told] == made[..k]
}

// What the library answers, at the start of out: how many bytes.
fn answer(kind: u8, given: &[u8], out: &mut [u8]) -> usize
    requires { length given.now ≤ length out.old }
    ensures { result ≤ length out.old }
{
    match kind {
        b'd' => entities::decode_entities(given, out, 0),
        b't' => entities::escape_text(given, out, 0).unwrap_or(0),
        b'a' => entities::escape_attr(given, out, 0).unwrap_or(0),
        b'u' => copy_part(given, 0, utf8::utf8_end(given), out),
        _ => {
            let span = utf8::trim(given);
            copy_part(given, span.start, span.end, out)
        }
    }
}

fn copy_part(given: &[u8], start: usize, end: usize, out: &mut [u8]) -> usize
    requires { (start ≤ end) × (end ≤ length given.now) }
    ensures { result ≤ length out.old }
{
    scan::append(out, 0, &given[start..end]).unwrap_or(0)
}
