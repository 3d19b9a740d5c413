// Clock times as most documents have them and as `format_ts` writes them, `hh:mm:ss.mmm`: read without a search.
ghost use Rattle.std.specs.Prelude.{◌≡◌, ◌+◌, ◌*◌, length};
ghost use Rattle.times.specs.Steps.{digit_or, in_millis, usual_millis};

// A digit's value; 1,000 for any other byte, so that a sum over it passes every limit below: an `Option` would be
// tested at each digit.
fn digit(b: u8) -> u64
    ensures { result ≡ digit_or b }
{
    match b {
        b'0'..=b'9' => (b - b'0') as u64,
        _ => 1000,
    }
}

fn two_digits(tens: u8, ones: u8) -> u64
    ensures { result ≡ digit_or tens * 10 + digit_or ones }
{
    digit(tens) * 10 + digit(ones)
}

fn three_digits(hundreds: u8, tens: u8, ones: u8) -> u64
    ensures { result ≡ digit_or hundreds * 100 + (digit_or tens * 10 + digit_or ones) }
{
    digit(hundreds) * 100 + two_digits(tens, ones)
}

// So many hours, minutes, seconds and milliseconds, each below its limit, as milliseconds; 360,000,000 where one is not.
fn in_millis(h: u64, m: u64, s: u64, ms: u64) -> u64
    ensures { result ≡ in_millis h m s ms }
{
    if 100 <= h || 60 <= m || 60 <= s || 1000 <= ms {
        return 360000000;
    }
    ((h * 60 + m) * 60 + s) * 1000 + ms
}

// The milliseconds that twelve bytes say in this form; 360,000,000 where they have another, or a minute or a second past 59.
pub fn usual_millis(text: &[u8]) -> u64
    requires { length text.now ≡ 12 }
    ensures { result ≡ usual_millis text.now }
{
    if text[2] != b':' || text[5] != b':' || text[8] != b'.' {
        return 360000000;
    }
    let h = two_digits(text[0], text[1]);
    let m = two_digits(text[3], text[4]);
    let s = two_digits(text[6], text[7]);
    let ms = three_digits(text[9], text[10], text[11]);
    in_millis(h, m, s, ms)
}
