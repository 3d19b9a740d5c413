// Single cells changed, and set back.
use crate::ask::ask;
use crate::tables::{Lent, place};

// What a cell holds: `size` in the table of sizes, `cell` in any other.
#[derive(Clone, Copy)]
pub struct Value {
    pub cell: u32,
    pub size: f32,
}

// A number as a cell's value, and the size that has this number.
pub fn value_of(n: u32) -> Value {
    Value {
        cell: n,
        size: crate::floats::float(n),
    }
}

// A cell set: what it was.
fn exchange_cell(cells: &mut [u32], at: usize, v: Value) -> Value {
    if cells.len() <= at {
        return v;
    }
    let old = cells[at];
    cells[at] = v.cell;
    Value {
        cell: old,
        size: 0.0,
    }
}

// A byte set to the lowest byte of a number.
fn exchange_byte(cells: &mut [u8], at: usize, v: Value) -> Value {
    if cells.len() <= at {
        return v;
    }
    let old = cells[at];
    cells[at] = (v.cell % 256) as u8;
    Value {
        cell: u32::from(old),
        size: 0.0,
    }
}

fn exchange_size(cells: &mut [f32], at: usize, v: Value) -> Value {
    if cells.len() <= at {
        return v;
    }
    let old = cells[at];
    cells[at] = v.size;
    Value { cell: 0, size: old }
}

// A cell of the table with this letter set: what it was.
fn exchange(table: u8, cell: u32, v: Value, lent: &mut Lent) -> Value {
    let at = place(table, cell);
    match table {
        b'f' => exchange_size(&mut lent.sizes, at, v),
        b'z' | b'y' => exchange_byte(&mut lent.bytes, at, v),
        _ => exchange_cell(&mut lent.cells, at, v),
    }
}

// The answer where one cell is set. It is set back.
pub fn one_changed(table: u8, cell: u32, v: Value, lent: &mut Lent) -> u32 {
    let old = exchange(table, cell, v, lent);
    let number = ask(0, lent);
    exchange(table, cell, old, lent);
    number
}

// The answer where the cells that the line names are set, one after the other. They are set back.
pub fn changed(line: &[u8], lent: &mut Lent) -> u32 {
    if line.len() < 5 {
        return ask(0, lent);
    }
    let table = line[0];
    let cell = crate::words::number_at(line, 2);
    let v = value_of(crate::words::second_number(line));
    let rest = crate::words::after_second(line);
    let old = exchange(table, cell, v, lent);
    let number = changed(&line[rest..], lent);
    exchange(table, cell, old, lent);
    number
}
