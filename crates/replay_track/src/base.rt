// The track that is broken: two styles, a region, a parameter, xml:lang and three cues with segments
// of every kind.
use crate::floats::float;
use crate::tables::{
    Bytes, CUES, Cells, EXTRAS, Lent, PARAMS, REGIONS, SEGMENTS, STYLES, Sizes, TEXTS, Times, put,
};

// Counts, xml:lang `en`, used bytes.
const HEAD_CELLS: [u32; 10] = [1, 2, 1, 3, 15, 1, 0, 2, 59, 23];

// `ttp:frameRate`, `25`.
const PARAM_ROWS: [u32; 4] = [2, 13, 15, 2];

// `s0` with all there is but a chain; `tïtle` with the chain `s0 s9` and the size -12.5.
const STYLE_ROWS: [u32; 54] = [
    17, 2, 0, 0, 1, 255, 0, 16, 255, 1, 0, 0, 0, 128, 1, 30, 8, 1, 8, 0, 1, 0, 1, 0, 4, 0, 3, 19,
    6, 25, 5, 0, 0, 0, 0, 0, 0, 0, 0, 0, 0, 0, 0, 0, 2, 125, 1, 0, 1, 0, 1, 0, 3, 0,
];

// `r1`.
const REGION_ROWS: [u32; 4] = [43, 2, 3, 2];

// Three of the first style, two of the region, two of the first cue; the third cue has the last.
const EXTRA_ROWS: [u32; 21] = [
    0, 52, 3, 12, 45, 7, 45, 55, 4, 3, 45, 7, 52, 52, 3, 5, 0, 2, 46, 55, 4,
];

const CUE_ROWS: [u32; 33] = [
    1, 17, 2, 1, 43, 2, 1, 0, 6, 5, 2, 0, 0, 0, 0, 0, 0, 0, 6, 7, 0, 0, 1, 19, 6, 0, 0, 0, 1, 13,
    2, 6, 1,
];

// In the first cue a text, a bold one with a break, an italic one; in the second a timestamp,
// underline around strike and an empty colour, and a font of family `serif` and size 0.1; in the third
// a font of size -12.5 around an empty text. The marks of the fonts are 139, a family and `0.1`, and
// 16012, `-12.5` alone; the cell behind them has the bits of the f32.
const SEGMENT_ROWS: [u32; 90] = [
    1, 1, 0, 6, 0, 0, 4, 3, 0, 0, 0, 0, 1, 1, 6, 6, 0, 0, 2, 1, 0, 0, 0, 0, 5, 2, 0, 0, 0, 0, 1, 1,
    12, 6, 0, 0, 3, 1, 2000000, 0, 0, 0, 6, 4, 0, 0, 0, 0, 7, 2, 0, 0, 0, 0, 1, 1, 18, 1, 0, 0, 8,
    1, 255, 0, 128, 0, 9, 2, 38, 5, 139, 1036831949, 1, 1, 19, 4, 0, 0, 9, 2, 0, 0, 16012,
    3242721280, 1, 1, 23, 0, 0, 0,
];

// A row written from the start of a table.
fn fill<T: Copy>(cells: &mut [T], start: usize, row: &[T]) {
    for (i, &v) in row.iter().enumerate() {
        put(cells, start, i, v);
    }
}

// In tables that are zero.
pub fn build(lent: &mut Lent) {
    build_cells(&mut lent.cells);
    build_times(&mut lent.times);
    build_sizes(&mut lent.sizes);
    build_bytes(&mut lent.bytes);
}

pub fn build_cells(cells: &mut Cells) {
    fill(cells, 0, &HEAD_CELLS);
    fill(cells, PARAMS, &PARAM_ROWS);
    fill(cells, STYLES, &STYLE_ROWS);
    fill(cells, REGIONS, &REGION_ROWS);
    fill(cells, CUES, &CUE_ROWS);
    fill(cells, SEGMENTS, &SEGMENT_ROWS);
    fill(cells, EXTRAS, &EXTRA_ROWS);
}

// Times of the cues.
fn build_times(times: &mut Times) {
    times[1] = 1500000;
    times[2] = 1500000;
    times[3] = 4000000;
    times[4] = -1;
    times[5] = i64::MAX;
}

// Sizes of the styles.
fn build_sizes(sizes: &mut Sizes) {
    sizes[0] = float(2);
    sizes[1] = float(5);
}

fn build_bytes(bytes: &mut Bytes) {
    fill(
        bytes,
        0,
        b"enttp:frameRate25s0t\xC3\xAFtles0 s9Noto \xE5\xAD\x97serifr110% 80%0.5\xF0\x9F\x98\x80",
    );
    fill(
        bytes,
        TEXTS,
        b"Hello w\xC3\xB6rld\xE5\xAD\x97\xE5\xB9\x95x\xF0\x9F\x98\x80",
    );
}

// More rows than a line could set: `n`, `q` or `k`.
pub fn grow(how: u8, n: u32, cells: &mut Cells) {
    if 20000 < n {
        return;
    }
    match how {
        b'n' => {
            put(cells, 0, 3, 1);
            put(cells, 0, 4, n);
            put(cells, CUES, 8, n);
            nest(cells, n);
        }
        b'q' => {
            put(cells, 0, 3, n);
            add_cues(cells, n);
        }
        _ => {
            put(cells, 0, 4, n);
            add_breaks(cells, n);
            if 13 < n {
                put(cells, CUES, 30, n - 13);
            }
        }
    }
}

// A cell of a segment, if there is such a row.
fn put_segment(cells: &mut [u32], row: u32, i: usize, v: u32) {
    if row < 16384 {
        put(cells, SEGMENTS + row as usize * 6, i, v);
    }
}

// Rows 0 to n - 1 are wrappers, each inside the one before.
fn nest(cells: &mut Cells, n: u32) {
    for i in 0..n {
        put_segment(cells, i, 0, 4 + i % 4);
        put_segment(cells, i, 1, n - i);
    }
}

// Rows 3 to n - 1 are cues without segments.
fn add_cues(cells: &mut Cells, n: u32) {
    for i in 3..n {
        put_cue(cells, i, 7, 15);
    }
}

fn put_cue(cells: &mut [u32], row: u32, i: usize, v: u32) {
    if row < 2048 {
        put(cells, CUES + row as usize * 11, i, v);
    }
}

// Rows 15 to n - 1 are breaks.
fn add_breaks(cells: &mut Cells, n: u32) {
    for i in 15..n {
        put_segment(cells, i, 0, 2);
        put_segment(cells, i, 1, 1);
    }
}
