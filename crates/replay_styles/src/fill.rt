// A line that has a table's cells.
ghost use Rattle.std.specs.Prelude.{◌≤◌, ◌<◌, length};

use crate::cells::Cells;

// A question or a remark fills nothing.
pub fn fill(line: &[u8], cells: &mut Cells) {
    match crate::fields::byte(line, 0) {
        b'h' => put_numbers(line, &mut cells.head),
        b'p' => put_numbers(line, &mut cells.params),
        b's' => put_numbers(line, &mut cells.styles),
        b'r' => put_numbers(line, &mut cells.regions),
        b'c' => put_numbers(line, &mut cells.cues),
        b'e' => put_numbers(line, &mut cells.extras),
        b'f' => put_size(line, &mut cells.sizes),
        b'z' => put_bytes(line, &mut cells.strings),
        _ => {}
    }
}

// The numbers of a line, which single blanks divide.
fn put_numbers(line: &[u8], cells: &mut [u32]) {
    let mut pos = 2;
    for cell in cells {
        if line.len() <= pos {
            return;
        }
        let end = scan::find_byte(line, pos, b' ');
        *cell = crate::fields::number(&line[pos..end]);
        pos = end + 1;
    }
}

// A cell of the sizes and its bits.
fn put_size(line: &[u8], sizes: &mut [f32]) {
    if line.len() < 2 {
        return;
    }
    let gap = scan::find_byte(line, 2, b' ');
    if line.len() <= gap {
        return;
    }
    let cell = crate::fields::number(&line[2..gap]) as usize;
    let bits = crate::fields::number(&line[gap + 1..]);
    if let Some(size) = sizes.get_mut(cell) {
        *size = float(bits);
    }
}

// The float of these bits; 0 for a NaN, which no track has.
fn float(bits: u32) -> f32 {
    if 0x7F80_0000 < bits % 0x8000_0000 {
        return 0.0;
    }
    f32::from_bits(bits)
}

fn put_bytes(line: &[u8], bytes: &mut [u8]) {
    if let [_, _, hex @ ..] = line {
        replaying::unhex(hex, bytes);
    }
}
