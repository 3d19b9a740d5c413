// How an answer is told to a caller in C: its number in the low 32 bits; its place, or what it counts, in the high 32.
ghost use Rattle.std.specs.Prelude.{◌≡◌};
ghost use Rattle.told.specs.Told.{told};

pub fn told(number: u32, high: usize) -> u64
    ensures { result ≡ told number high }
{
    let low = (high as u64) % 4294967296;
    (number as u64) + low * 4294967296
}
