// Cells picked by chance: a xorshift generator with a fixed seed.
use crate::single::value_of;
use crate::tables::Lent;

// standard output
const STDOUT_FILENO: i32 = 1;

const SEED: u32 = 2463534242;

// The generator's next number.
fn next(state: u32) -> u32 {
    let a = state ^ (state << 13);
    let b = a ^ (a >> 17);
    b ^ (b << 5)
}

// One of the tables.
fn letter(n: u32) -> u8 {
    match n % 10 {
        0 => b'h',
        1 => b'p',
        2 => b's',
        3 => b'r',
        4 => b'c',
        5 => b'g',
        6 => b'e',
        7 => b'z',
        8 => b'y',
        _ => b'f',
    }
}

// One of the cells that the track uses in a table.
fn used_cell(table: u8, n: u32) -> u32 {
    match table {
        b'h' => n % 10,
        b'p' => n % 4,
        b's' => n % 54,
        b'r' => n % 4,
        b'c' => n % 33,
        b'g' => n % 90,
        b'e' => n % 21,
        b'z' => n % 59,
        b'y' => n % 23,
        _ => n % 2,
    }
}

// Small values more often than large ones; sizes and bytes have few.
fn pick(table: u8, n: u32) -> u32 {
    let m = n / 4;
    match (table, n % 4) {
        (b'f', _) => m % 18,
        (b'z' | b'y', _) => m % 256,
        (_, 0) => m % 3,
        (_, 1) => m % 20,
        (_, 2) => m % 300,
        _ => m,
    }
}

// `count` cells, one after the other.
pub fn by_chance(count: u32, lent: &mut Lent) {
    let mut state = SEED;
    for _ in 0..count {
        state = one_by_chance(state, lent);
    }
}

// A cell set, printed with the answer, and set back: the generator's state.
fn one_by_chance(state: u32, lent: &mut Lent) -> u32 {
    let a = next(state);
    let b = next(a);
    let c = next(b);
    let table = letter(a);
    let cell = used_cell(table, b);
    let v = pick(table, c);
    print_change(table, cell, v);
    let number = crate::single::one_changed(table, cell, value_of(v), lent);
    crate::words::print_answer(number);
    c
}

fn print_change(table: u8, at: u32, v: u32) {
    let start = [table, b' '];
    io::write_all(STDOUT_FILENO, &start);
    io::print_decimal(STDOUT_FILENO, at as u64);
    io::write_all(STDOUT_FILENO, b" ");
    io::print_decimal(STDOUT_FILENO, v as u64);
}
