#![tactic(auto)]
// Replays recorded answers of the Rust to whole calls: the list on standard input says how it was made. Prints each
// question that these libraries answer otherwise, and the counts.
//
//     p IN OUT    parse, c bytes_to_cue, w what program `recaption` prints: of the text IN
//     P IN OUT    the same, C and W, of a text in pieces: IN is for each piece 2 bytes of how often it stands, a byte of
//                 its length, and itself
//     + IN -      pieces that stand before those of the next line
//     # ...       a remark
//
// IN and OUT are bytes in hexadecimal. OUT is a byte of the number, 0 for none; 4 bytes of its place, or of how many bytes
// were written; 4 bytes of the sum over all cells (`sums`), for `w` over all bytes lent for what is printed: the text, or the
// line of a refusal.
mod answer;
mod question;
mod sums;
mod text;

ghost use Rattle.std.specs.Prelude.{◌+◌, ◌^◌, ◌≤◌, ◌<◌};

use replaying::Tally;

// standard input
const STDIN_FILENO: i32 = 0;

fn main() {
    let mut list = [0u8; 262144];
    let mut text = [0u8; 65537];
    let got = io::read_full(STDIN_FILENO, &mut list);
    replaying::print_tally(replay(&list[..got], &mut text));
}

// Every line of the list.
fn replay(list: &[u8], text: &mut [u8]) -> Tally {
    let mut tally = replaying::no_lines();
    let mut laid = 0;
    let mut pos = 0;
    while pos < list.len() {
        let end = scan::find_byte(list, pos, b'\n');
        let line = &list[pos..end];
        laid = text::lay_line(line, text, laid);
        tally = counted(tally, line, &text[..laid]);
        laid = text::carried(line, laid);
        pos = end + 1;
    }
    tally
}

// A question asked and counted; pieces of the next one's text do not count.
fn counted(tally: Tally, line: &[u8], text: &[u8]) -> Tally
    requires { tally.agree + tally.differ < 2 ^ 63 }
    ensures { result.agree + result.differ ≤ tally.agree + tally.differ + 1 }
{
    if text::is_part(line) {
        return tally;
    }
    replaying::counted(tally, line, question::agrees(line, text))
}
