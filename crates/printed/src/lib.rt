#![tactic(auto)]
// What program `recaption` prints: the text that was written, or the line of a refusal.
ghost use Rattle.scan.specs.Posts.{Wrote};
ghost use Rattle.printed.specs.Printed.{refusal_line, Prints};

use tree::Refusal;

// The number, a blank, the place and LF at the start of `out`, if they fit.
fn put_refusal(r: Refusal, out: &mut [u8]) -> Option<usize>
    ensures { Wrote (refusal_line r) 0 out.old out.new result }
{
    let number = r.number as u64;
    let place = r.place as u64;
    let first = numerals::decimal_width(number);
    let second = numerals::decimal_width(place);
    if out.len() < first + second + 2 {
        return None;
    }
    let blank = numerals::put_digits(out, 0, number, 10, first);
    let start = scan::copy(b" ", out, blank);
    let end = numerals::put_digits(out, start, place, 10, second);
    Some(scan::copy(b"\n", out, end))
}

// How many bytes of `out` are to be printed: those of the text, which stands there, or those of the line of a refusal, which is put there.
pub fn print(answer: Result<usize, Refusal>, out: &mut [u8]) -> Option<usize>
    ensures { Prints answer out.old out.new result }
{
    match answer {
        Ok(n) => Some(n),
        Err(r) => put_refusal(r, out),
    }
}
