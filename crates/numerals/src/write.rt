// Writing whole numbers in digits.
ghost use Rattle.std.specs.Prelude.{◌≡◌, ◌+◌, ◌≤◌, ◌<◌, length};
ghost use Rattle.scan.specs.Posts.{Appended};
ghost use Rattle.numerals.specs.Written.{digit_char, padded, decimal_width};

#[tactic(auto, unfolding(crate::specs::Written::digit_char))]
fn digit_char(d: u64) -> u8
    requires { d < 36 }
    ensures { result ≡ digit_char d }
{
    if d < 10 {
        b'0' + d as u8
    } else {
        b'A' + (d - 10) as u8
    }
}

// How many decimal digits a number has: 1 or more.
pub fn decimal_width(n: u64) -> usize
    ensures { result ≡ decimal_width n }
{
    let mut width = 1;
    let mut left = n / 10;
    while 0 < left {
        left /= 10;
        width += 1;
    }
    width
}

// The last digits of a number, as many as the width says, written at a place; the answer is the
// place after them.
pub fn put_digits(out: &mut [u8], at: usize, n: u64, radix: u64, width: usize) -> usize
    requires { (at + width ≤ length out.old) × (2 ≤ radix) × (radix ≤ 36) }
    ensures { Appended (padded radix width n) at out.old out.new result }
{
    let mut left = n;
    for i in (0..width).rev() {
        out[at + i] = digit_char(left % radix);
        left /= radix;
    }
    at + width
}
