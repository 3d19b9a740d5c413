// A time written as a clock time with milliseconds.
ghost use Rattle.std.specs.Prelude.{◌≡◌, ◌+◌, ◌≤◌, length};
ghost use Rattle.scan.specs.Posts.{Wrote, Appended};
ghost use Rattle.times.specs.Written.{millis, clock_text, field, hours_width};

// Whole milliseconds of a time; one below zero counts as zero.
fn milliseconds(us: i64) -> u64
    ensures { result ≡ millis us }
{
    if us < 0 {
        return 0;
    }
    us as u64 / 1000
}

// Two digits, or as many as the number has, and a mark, at a place with room for them.
fn put_field(out: &mut [u8], at: usize, n: u64, width: usize, mark: u8) -> usize
    requires { at + width + 1 ≤ length out.old }
    ensures { Appended (field width n mark) at out.old out.new result }
{
    let end = numerals::put_digits(out, at, n, 10, width);
    out[end] = mark;
    end + 1
}

// Hours have two digits or more; their number fits a u32 for every i64, as the Rust casts it:
// (2^63 - 1) / 3,600,000,000 is 2,562,047,788.
#[tactic(auto, unfolding(crate::specs::Written::hours_width))]
fn hours_width(h: u64) -> usize
    ensures { result ≡ hours_width h }
{
    numerals::decimal_width(h).max(2)
}

// `hh:mm:ss.mmm` written at a place, if it fits.
pub fn format_ts(out: &mut [u8], at: usize, us: i64) -> Option<usize>
    requires { at ≤ length out.old }
    ensures { Wrote (clock_text us) at out.old out.new result }
{
    let ms = milliseconds(us);
    let h = ms / 3600000;
    let width = hours_width(h);
    if out.len() - at < width + 10 {
        return None;
    }
    let minutes = put_field(out, at, h, width, b':');
    let seconds = put_field(out, minutes, ms / 60000 % 60, 2, b':');
    let rest = put_field(out, seconds, ms / 1000 % 60, 2, b'.');
    Some(numerals::put_digits(out, rest, ms % 1000, 10, 3))
}
