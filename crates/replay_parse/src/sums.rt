// The sum over all cells: 1 at first, and with each number that is added it is multiplied before. Of a table each cell that
// is not 0 adds its index and its value; after the last cell 0 is added.

// a prime below 2^32
const MODULUS: u64 = 4294967291;

const FACTOR: u64 = 16777619;

fn add(sum: u32, value: u64) -> u32 {
    ((sum as u64 * FACTOR + value % MODULUS) % MODULUS) as u32
}

fn add_cell(sum: u32, at: usize, value: u64) -> u32 {
    if value == 0 {
        return sum;
    }
    add(add(sum, at as u64), value)
}

// Twice a time; of a negative one twice what it is below -1, and 1.
fn unsigned(time: i64) -> u64 {
    ((time << 1) ^ (time >> 63)).cast_unsigned()
}

fn add_cells<T: Copy + Into<u64>>(sum: u32, cells: &[T]) -> u32 {
    let mut all = sum;
    for (i, &cell) in cells.iter().enumerate() {
        all = add_cell(all, i, cell.into());
    }
    add(all, 0)
}

fn add_times(sum: u32, times: &[i64]) -> u32 {
    let mut all = sum;
    for (i, &time) in times.iter().enumerate() {
        all = add_cell(all, i, unsigned(time));
    }
    add(all, 0)
}

// What is written; or all tables but the sizes, which are floats.
pub fn of_answer(
    written: bool,
    nodes: &[u32; 49152],
    attrs: &[u32; 32768],
    head: &[u32; 10],
    params: &[u32; 256],
    styles: &[u32; 6912],
    regions: &[u32; 1024],
    cues: &[u32; 22528],
    times: &[i64; 4096],
    segments: &[u32; 98304],
    extras: &[u32; 24576],
    strings: &[u8; 65536],
    texts: &[u8; 65536],
    out: &[u8; 65536],
) -> u32 {
    if written {
        return add_cells(1, out);
    }
    let mut sum = add_cells(1, nodes);
    sum = add_cells(sum, attrs);
    sum = add_cells(sum, head);
    sum = add_cells(sum, params);
    sum = add_cells(sum, styles);
    sum = add_cells(sum, regions);
    sum = add_cells(sum, cues);
    sum = add_times(sum, times);
    sum = add_cells(sum, segments);
    sum = add_cells(sum, extras);
    sum = add_cells(sum, strings);
    add_cells(sum, texts)
}
