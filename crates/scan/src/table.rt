// Lent tables: cells that are cleared, set and read, and bytes that are appended.
ghost use Rattle.std.specs.Prelude.{◌≡◌, false, [], ◌∷◌, ◌+◌, ◌-◌, ◌≤◌, ◌<◌, ◌^◌, length, get_or, replicate, pos};
ghost use Rattle.std.proofs.lemmas.List.Edits.{sets};
ghost use Rattle.std.specs.Float.{fin};
ghost use Rattle.scan.specs.Posts.{Appended, Wrote};

pub fn clear(cells: &mut [u32])
    ensures { cells.new ≡ replicate (length cells.old) 0 }
{
    cells.fill(0);
}

pub fn clear_bytes(cells: &mut [u8])
    ensures { cells.new ≡ replicate (length cells.old) 0 }
{
    cells.fill(b'\0');
}

// The same of times,
pub fn clear_i64(cells: &mut [i64])
    ensures { cells.new ≡ replicate (length cells.old) (pos 0) }
{
    cells.fill(0);
}

// and of sizes.
pub fn clear_f32(cells: &mut [f32])
    ensures { cells.new ≡ replicate (length cells.old) (fin false 0 (pos 0)) }
{
    cells.fill(0.0);
}

// One cell set: places and lengths are kept as 32 bits.
pub fn put(cells: &mut [u32], at: usize, v: usize)
    requires { (at < length cells.old) × (v < 2 ^ 32) }
    ensures { cells.new ≡ sets cells.old at (v ∷ []) }
{
    cells[at] = v as u32;
}

// One cell read.
pub fn get(cells: &[u32], at: usize) -> usize
    requires { at < length cells.now }
    ensures { result ≡ get_or cells.now at 0 }
{
    cells[at] as usize
}

// The piece written at a place, byte by byte: `copy_from_slice` would call `memmove`, for a byte or two as a rule.
fn copy_each(piece: &[u8], out: &mut [u8], at: usize)
    requires { at + length piece.now ≤ length out.old }
    ensures { out.new ≡ sets out.old at piece.now }
{
    for i in 0..piece.len() {
        out[at + i] = piece[i];
    }
}

// The same of up to three bytes.
fn copy_few(piece: &[u8], out: &mut [u8], at: usize)
    requires { (at + length piece.now ≤ length out.old) × (length piece.now < 4) }
    ensures { out.new ≡ sets out.old at piece.now }
{
    let n = piece.len();
    if n == 0 {
        return;
    }
    out[at] = piece[0];
    if n == 1 {
        return;
    }
    out[at + 1] = piece[1];
    if n == 2 {
        return;
    }
    out[at + 2] = piece[2];
}

// The same of `half` bytes to twice as many: the first `half` and the last, which may overlap. The compiler copies a part of a known
// length at once.
fn copy_halves(piece: &[u8], half: usize, out: &mut [u8], at: usize)
    requires { (half ≤ length piece.now) × (length piece.now ≤ half + half) × (at + length piece.now ≤ length out.old) }
    ensures { out.new ≡ sets out.old at piece.now }
{
    let rest = piece.len() - half;
    copy_each(&piece[..half], out, at);
    copy_each(&piece[rest..], out, at + rest);
}

// The same of any piece. It is short as a rule: a loop, or a call of one, would cost more than what it copies.
fn store(piece: &[u8], out: &mut [u8], at: usize)
    requires { at + length piece.now ≤ length out.old }
    ensures { out.new ≡ sets out.old at piece.now }
{
    match piece.len() {
        0..=3 => copy_few(piece, out, at),
        4..=8 => copy_halves(piece, 4, out, at),
        9..=16 => copy_halves(piece, 8, out, at),
        _ => copy_each(piece, out, at),
    }
}

// The piece written at a place where it fits; the answer is the place after it.
pub fn copy(piece: &[u8], out: &mut [u8], at: usize) -> usize
    requires { at + length piece.now ≤ length out.old }
    ensures { Appended piece.now at out.old out.new result }
{
    store(piece, out, at);
    at + piece.len()
}

// The same, if it fits. It is a fixed byte string as a rule, whose length is known where this is inlined.
pub fn append(out: &mut [u8], at: usize, piece: &[u8]) -> Option<usize>
    requires { at ≤ length out.old }
    ensures { Wrote piece.now at out.old out.new result }
{
    if out.len() - at < piece.len() {
        return None;
    }
    copy_each(piece, out, at);
    Some(at + piece.len())
}
