// `check_track` asked.
ghost use Rattle.std.specs.Prelude.{◌+◌, ◌≤◌, ◌<◌, ◌^◌};

use crate::tables::Lent;
use track::Tables;
use tree::Refusal;

// What `check_track` answers where the table with the letter `short` is lent one cell short.
pub fn ask(short: u8, lent: &Lent) -> u32 {
    let h = end(short, b'h', 10);
    let p = end(short, b'p', 266);
    let s = end(short, b's', 7178);
    let r = end(short, b'r', 8202);
    let c = end(short, b'c', 30730);
    let t = end(short, b't', 4096);
    let g = end(short, b'g', 129034);
    let f = end(short, b'f', 256);
    let e = end(short, b'e', 153610);
    let z = end(short, b'z', 65536);
    let y = end(short, b'y', 131072);
    number_of(track::check_track(&Tables {
        head: &lent.cells[..h],
        params: &lent.cells[10..p],
        styles: &lent.cells[266..s],
        regions: &lent.cells[7178..r],
        cues: &lent.cells[8202..c],
        times: &lent.times[..t],
        segments: &lent.cells[30730..g],
        sizes: &lent.sizes[..f],
        extras: &lent.cells[129034..e],
        strings: &lent.bytes[..z],
        texts: &lent.bytes[65536..y],
    }))
}

// Where the table with the letter `own`, whose last cell is before n, ends as it is lent.
fn end(short: u8, own: u8, n: usize) -> usize
    requires { 0 < n }
    ensures { (n ≤ result + 1) × (result ≤ n) }
{
    if short == own { n - 1 } else { n }
}

fn number_of(c: Result<(), Refusal>) -> u32 {
    match c {
        Ok(()) => 0,
        Err(r) => r.number,
    }
}
