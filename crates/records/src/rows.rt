// Rows by value: one function adds a row to any table.
ghost use Rattle.std.specs.Prelude.{ℕ, List, ◌≡◌, ◌+◌, ◌*◌, ◌≤◌, length};
ghost use Rattle.std.proofs.lemmas.List.Edits.{sets};
ghost use Rattle.records.specs.Posts.{AddPost};

// A row of a table: how many cells it has, how many rows the table has at most, and the cells that it is written as.
pub trait Row {
    ghost WIDTH: { ℕ };

    ghost MOST: { ℕ };

    ghost cells: { Self → List ℕ };

    ghost Small: { Self → Type 0 };

    const WIDTH: usize;

    const MOST: usize;

    fn put(self, table: &mut [u32], at: usize)
        requires { (at + WIDTH ≤ length table.old) × Small self }
        ensures { table.new ≡ sets table.old at (cells self) };
}

// A row more, where there are n.
pub fn add<R: Row + Copy>(table: &mut [u32], n: usize, x: R) -> Option<usize>
    requires { (R.MOST * R.WIDTH ≤ length table.old) × R.Small x }
    ensures { AddPost R.MOST R.WIDTH (R.cells x) table.old table.new n result }
{
    if R::MOST <= n {
        return None;
    }
    x.put(table, n * R::WIDTH);
    Some(n + 1)
}
