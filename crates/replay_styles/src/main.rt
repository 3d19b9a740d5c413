#![tactic(auto)]
// Replays recorded answers of the Rust to the three queries: the list on standard input says how it
// was made. Prints each question that these libraries answer otherwise, and the counts.
//
// A line is a table of the track, or a question about the track that the lines before it made.
//
//     h 1 0 ..       the cells of the head, from the first on; likewise p parameters, s styles,
//                    r regions, c cues and e extras
//     f CELL BITS    a cell of the sizes: the bits of its f32
//     z HEX          the strings
//     V IN OUT       resolve_referenced_style, R region_style, C effective_style_for_cue_index
//     # ...          a remark
//
// IN and OUT are bytes in hexadecimal. The first byte of IN is 0 if the table of ids is lent 8 cells,
// and 1 if it is lent 128; then comes the value or the id, and for a cue 2 bytes of its index. OUT is the
// Rust's answer, in the bytes that `answer` lists.
mod answer;
mod ask;
mod cells;
mod fields;
mod fill;

ghost use Rattle.std.specs.Prelude.{◌+◌, ◌^◌, ◌≤◌, ◌<◌};

use replaying::Tally;
use track::Tables;

// standard input
const STDIN_FILENO: i32 = 0;

fn main() {
    let mut list = [0u8; 262144];
    let got = io::read_full(STDIN_FILENO, &mut list);
    replaying::print_tally(replay(&list[..got]));
}

// Every line of the list.
fn replay(list: &[u8]) -> Tally {
    let mut cells = cells::Cells::zero();
    let mut tally = replaying::no_lines();
    let mut pos = 0;
    while pos < list.len() {
        let end = scan::find_byte(list, pos, b'\n');
        fill::fill(&list[pos..end], &mut cells);
        tally = counted(tally, &list[pos..end], &cells.tables());
        pos = end + 1;
    }
    tally
}

// A question counted; no other line counts.
fn counted(tally: Tally, line: &[u8], t: &Tables<'_>) -> Tally
    requires { tally.agree + tally.differ < 2 ^ 63 }
    ensures { result.agree + result.differ ≤ tally.agree + tally.differ + 1 }
{
    if !fields::is_question(line) {
        return tally;
    }
    replaying::counted(tally, line, agrees(line, t))
}

// Do these libraries answer what the line says? The table of ids is filled before it is lent.
fn agrees(line: &[u8], t: &Tables<'_>) -> bool {
    let mut text = [0u8; 2048];
    let mut told = [0u8; 2048];
    let mut ids = [7u32; 128];
    let read = fields::question(line, &mut text, &mut told);
    let n = read.given;
    let m = read.told;
    let lent = fields::lent(line);
    ask::is_answer(read.kind, &text[..n], &told[..m], t, &mut ids[..lent])
}
