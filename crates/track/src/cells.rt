// Cells that hold a flag, a colour or a size.
ghost use Rattle.std.specs.Prelude.{◌≡◌, ◌+◌, ◌≤◌, length};
ghost use Rattle.track.specs.Meaning.{is_flag, is_byte, are_three, is_color, is_size_at};

use decimals::Size;

pub fn is_flag(c: u32) -> bool
    ensures { result ≡ is_flag c }
{
    c <= 1
}

pub fn is_byte(c: u32) -> bool
    ensures { result ≡ is_byte c }
{
    c < 256
}

// Five cells: a flag, and red, green, blue and alpha.
pub fn is_color(cells: &[u32], at: usize) -> bool
    requires { at + 5 ≤ length cells.now }
    ensures { result ≡ is_color cells.now at }
{
    match cells[at] {
        0 => true,
        1 => are_three(cells, at + 1) && is_byte(cells[at + 4]),
        _ => false,
    }
}

// Are three cells bytes?
#[tactic(auto, unfolding(crate::specs::Meaning::are_three))]
pub fn are_three(cells: &[u32], at: usize) -> bool
    requires { at + 3 ≤ length cells.now }
    ensures { result ≡ are_three cells.now at }
{
    is_byte(cells[at]) && is_byte(cells[at + 1]) && is_byte(cells[at + 2])
}

// A sign (0: there is no size), digits, how many of them stand behind the point, and the f32.
#[tactic(auto, unfolding(crate::specs::Meaning::is_size_at))]
pub fn is_size_at(sign: u32, digits: u32, scale: u32, value: f32) -> bool
    ensures { result ≡ is_size_at sign digits scale value }
{
    match sign {
        0 => true,
        1 | 2 => decimals::is_size(Size {
            value,
            negative: sign == 2,
            digits,
            scale,
        }),
        _ => false,
    }
}
