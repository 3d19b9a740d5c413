// The numbers that come first: 1, 2, 3 and 17.
ghost use Rattle.std.specs.Prelude.{◌≡◌};
ghost use Rattle.track.specs.Handed.{lists};
ghost use Rattle.track.specs.Check.{refused_as_of};
ghost use Rattle.queries.specs.Steps.{is_short, check_text, query_check};

use track::Tables;
use tree::{BYTES, Refusal};

fn refused(number: u32) -> Result<(), Refusal>
    ensures { result ≡ refused_as_of number }
{
    Err(Refusal { number, place: 0 })
}

// Is it number 1?
fn is_short(check: Result<(), Refusal>) -> bool
    ensures { result ≡ is_short check }
{
    match check {
        Err(r) => r.number == 1,
        Ok(()) => false,
    }
}

// A query's text, where the check of the track answers this: 1 comes before 2 and 3, and these before 17.
fn check_text(text: &[u8], check: Result<(), Refusal>) -> Result<(), Refusal>
    ensures { result ≡ check_text text.now check }
{
    if is_short(check) {
        return refused(1);
    }
    if BYTES < text.len() {
        return refused(2);
    }
    if utf8::utf8_end(text) < text.len() {
        return refused(3);
    }
    check
}

// A query's text, and the track.
pub fn check_query(text: &[u8], t: &Tables<'_>) -> Result<(), Refusal>
    ensures { result ≡ query_check text.now (lists t.now) }
{
    check_text(text, track::check_track(t))
}
