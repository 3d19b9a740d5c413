// The ids visited: rows of four cells (0 the query's text or 1 the track's strings; place; length; link), found by hashing. The rows of one
// hash are a tree, so that ids made to share a hash are still found by their bits: `heads` has, numbered from 1, the first row of each hash, and
// a link the two rows after a row, the second times 65,536. 0 is no row in either: row 0 comes after none.
ghost use Rattle.std.specs.Prelude.{◌≡◌, not, ◌+◌, ◌*◌, ◌≤◌, ◌<◌, ◌^◌, length, get_or};
ghost use Rattle.scan.specs.Names.{same_bytes_of};
ghost use Rattle.names.specs.Numbers.{is_in};
ghost use Rattle.styles.specs.Ids.{hash_of, id_at, ids_in, turn, half, from_one, RowWithin, Tree, Held, Ends, AddPost, Unlinked};

// The bucket of a name.
pub fn hash(name: &[u8]) -> usize
    ensures { (result ≡ hash_of name.now) × (result < 4096) }
{
    let mut h = 0;
    for b in name {
        h = (h * 31 + *b as usize) % 4096;
    }
    h
}

// Is this the id in a row?
fn is_id(text: &[u8], strings: &[u8], ids: &[u32], row: usize, name: &[u8]) -> bool
    requires { (row * 4 + 4 ≤ length ids.now) × RowWithin text.now strings.now ids.now row }
    ensures { result ≡ same_bytes_of name.now (id_at text.now strings.now ids.now row) }
{
    let start = scan::get(ids, row * 4 + 1);
    let end = start + scan::get(ids, row * 4 + 2);
    if ids[row * 4] == 0 {
        return scan::same(name, &text[start..end]);
    }
    scan::same(name, &strings[start..end])
}

// The way that a search turns at this depth: a bit of the name, those of its last byte first.
fn turns(name: &[u8], depth: usize) -> bool
    ensures { result ≡ turn name.now depth }
{
    let back = depth / 8;
    if name.len() <= back {
        return false;
    }
    let byte = name[name.len() - 1 - back] as usize;
    (byte >> (depth % 8)) % 2 == 1
}

// One of the two rows in a link.
fn half_of(link: usize, second: bool) -> usize
    ensures { result ≡ half second link }
{
    if second {
        return link / 65536;
    }
    link % 65536
}

// The row after a row, numbered from 1.
fn next_row(ids: &[u32], row: usize, second: bool) -> usize
    requires { row * 4 + 4 ≤ length ids.now }
    ensures { result ≡ from_one (half second (get_or ids.now (row * 4 + 3) 0)) }
{
    let link = scan::get(ids, row * 4 + 3);
    let next = half_of(link, second);
    if next == 0 {
        return 0;
    }
    next + 1
}

// Is this, in bucket h, one of the ids in n rows?
pub fn is_visited(
    text: &[u8],
    strings: &[u8],
    ids: &[u32],
    heads: &[u32],
    n: usize,
    h: usize,
    name: &[u8],
) -> bool
    requires { Held text.now strings.now ids.now heads.now n × (h ≡ hash_of name.now) × (h < 4096) }
    ensures { result ≡ is_in name.now (ids_in text.now strings.now ids.now n) }
{
    let mut next = scan::get(heads, h);
    let mut depth = 0;
    while 0 < next {
        if is_id(text, strings, ids, next - 1, name) {
            return true;
        }
        let second = turns(name, depth);
        next = next_row(ids, next - 1, second);
        depth += 1;
    }
    false
}

// Where a search that finds nothing ends: at a row, numbered from 1, that has no row on this side; or at 0, an empty bucket.
#[derive(Clone, Copy)]
pub struct Slot {
    pub row: usize,
    pub second: bool,
}

fn free_slot(ids: &[u32], heads: &[u32], n: usize, h: usize, name: &[u8]) -> Slot
    requires { Tree ids.now heads.now n × (h ≡ hash_of name.now) × (h < 4096) }
    ensures { Ends ids.now heads.now n name.now result.row result.second }
{
    let mut slot = Slot {
        row: 0,
        second: false,
    };
    let mut next = scan::get(heads, h);
    let mut depth = 0;
    while 0 < next {
        let second = turns(name, depth);
        slot = Slot { row: next, second };
        next = next_row(ids, next - 1, second);
        depth += 1;
    }
    slot
}

// A link with row n on a side that was empty.
fn with_row(link: u32, second: bool, n: usize) -> u32
    requires { (n < 65536) × (half second link ≡ 0) }
    ensures { (half second result ≡ n) × (half (not second) result ≡ half (not second) link) }
{
    if second {
        return link + (n * 65536) as u32;
    }
    link + n as u32
}

// A row more, where there are n, for a name that is in none of them.
pub fn add_id(
    ids: &mut [u32],
    heads: &mut [u32],
    n: usize,
    h: usize,
    source: u32,
    place: usize,
    len: usize,
    name: &[u8],
)
    requires { (n * 4 + 4 ≤ length ids.old) × (n < 65536) × Tree ids.old heads.old n × (h ≡ hash_of name.now) × (h < 4096)
        × (place < 2 ^ 32) × (len < 2 ^ 32) }
    ensures { AddPost ids.old heads.old n source place len name.now ids.new
        heads.new }
{
    let slot = free_slot(ids, heads, n, h, name);
    let at = n * 4;
    ids[at] = source;
    ids[at + 1] = place as u32;
    ids[at + 2] = len as u32;
    ids[at + 3] = 0;
    if slot.row == 0 {
        heads[h] = (n + 1) as u32;
        return;
    }
    let cell = (slot.row - 1) * 4 + 3;
    let link = ids[cell];
    ids[cell] = with_row(link, slot.second, n);
}

// The links of n rows cleared: the ids stay.
pub fn clear_links(ids: &mut [u32], n: usize)
    requires { n * 4 ≤ length ids.old }
    ensures { Unlinked ids.old ids.new n }
{
    for i in 0..n {
        ids[i * 4 + 3] = 0;
    }
}
