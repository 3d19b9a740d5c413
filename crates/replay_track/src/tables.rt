// The eleven tables, in four.
ghost use Rattle.std.specs.Prelude.{◌+◌, ◌≤◌, ◌<◌, ◌^◌};

pub type Cells = [u32; 153610];

pub type Times = [i64; 4096];

pub type Sizes = [f32; 256];

// strings, texts
pub type Bytes = [u8; 131072];

// All cells of 32 bits, the times, the sizes, all bytes: what is lent to `check_track`.
#[derive(Drop)]
pub struct Lent {
    pub cells: Cells,
    pub times: Times,
    pub sizes: Sizes,
    pub bytes: Bytes,
}

pub const PARAMS: usize = 10;

pub const STYLES: usize = 266;

pub const REGIONS: usize = 7178;

pub const CUES: usize = 8202;

pub const SEGMENTS: usize = 30730;

pub const EXTRAS: usize = 129034;

pub const TEXTS: usize = 65536;

// Where the table with a letter begins, among the tables of its kind.
pub fn start(table: u8) -> usize
    ensures { result ≤ 129034 }
{
    match table {
        b'p' => PARAMS,
        b's' => STYLES,
        b'r' => REGIONS,
        b'c' => CUES,
        b'g' => SEGMENTS,
        b'e' => EXTRAS,
        b'y' => TEXTS,
        _ => 0,
    }
}

pub fn place(table: u8, cell: u32) -> usize {
    start(table) + cell as usize
}

// A cell set, if there is such a cell.
pub fn put<T: Copy>(cells: &mut [T], start: usize, i: usize, v: T) {
    if start < cells.len() && i < cells.len() - start {
        cells[start + i] = v;
    }
}
