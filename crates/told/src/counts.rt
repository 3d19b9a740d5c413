// How many nodes and attributes a tree has, in two cells.
ghost use Rattle.std.specs.Prelude.{◌≡◌, [], ◌∷◌, ◌≤◌, ◌<◌, ◌^◌, length};
ghost use Rattle.std.proofs.lemmas.List.Edits.{sets};

pub fn put_counts(counts: &mut [u32], nodes: usize, attrs: usize)
    requires { (2 ≤ length counts.old) × (nodes < 2 ^ 32) × (attrs < 2 ^ 32) }
    ensures { counts.new ≡ sets counts.old 0 (nodes ∷ attrs ∷ []) }
{
    counts[0] = nodes as u32;
    counts[1] = attrs as u32;
}
