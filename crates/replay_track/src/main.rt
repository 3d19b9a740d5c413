#![tactic(auto)]
// Breaks a track in every way of document 01's number 17 and asks `check_track`. Standard input says
// how, a line to a question; each line is printed with the answer: 0 where the tables hold a track,
// else the number.
//
//     T CELL VALUE   the cell of table T has this value (a line may name several cells)
//     l T            table T is lent one cell short
//     n N            the only cue's segments are N wrappers, one inside the other
//     q N            there are N cues, of which those added have no segments
//     k N            there are N segments, of which those added are breaks of the last cue
//     x N            N cells, one after the other, picked by chance
//     # ...          a remark
//
// Tables are h head, p parameters, s styles, r regions, c cues, g segments, e extras, z strings, y
// texts and f sizes (their values are numbers of `floats::float`); l also takes t times. After each
// line the track is what it was.
mod ask;
mod base;
mod chance;
mod floats;
mod single;
mod tables;
mod words;

use tables::Lent;

// standard input
const STDIN_FILENO: i32 = 0;
// standard output
const STDOUT_FILENO: i32 = 1;

fn main() {
    let mut space = [0u8; 65536];
    let got = io::read_full(STDIN_FILENO, &mut space);
    let mut lent = Lent {
        cells: [0; 153610],
        times: [0; 4096],
        sizes: [0.0; 256],
        bytes: [0; 131072],
    };
    base::build(&mut lent);
    replay(&space[..got], &mut lent);
}

// Every line of the list.
fn replay(list: &[u8], lent: &mut Lent) {
    let mut pos = 0;
    while pos < list.len() {
        let end = scan::find_byte(list, pos, b'\n');
        told(&list[pos..end], lent);
        pos = end + 1;
    }
}

// One line printed with its answer; a remark has none, and a line of chance has one to a cell.
fn told(line: &[u8], lent: &mut Lent) {
    io::write_all(STDOUT_FILENO, line);
    match words::first(line) {
        b'#' => {
            io::write_all(STDOUT_FILENO, b"\n");
        }
        b'x' => {
            io::write_all(STDOUT_FILENO, b"\n");
            chance::by_chance(words::number_at(line, 2), lent);
        }
        b'l' => words::print_answer(ask::ask(words::third(line), lent)),
        b'n' | b'q' | b'k' => {
            base::grow(
                words::first(line),
                words::number_at(line, 2),
                &mut lent.cells,
            );
            words::print_answer(ask::ask(0, lent));
            scan::clear(&mut lent.cells);
            base::build_cells(&mut lent.cells);
        }
        _ => words::print_answer(single::changed(line, lent)),
    }
}
