// The answer of a query, or that there is no room for it.
ghost use Rattle.std.specs.Prelude.{Ok, ◌≡◌, ◌≤◌, ◌&&◌, false, leb, length, replicate, pos};
ghost use Rattle.std.specs.Float.{fin};
ghost use Rattle.told.specs.Queries.{ToldAs, AnswersInC};
ghost use Rattle.told.specs.Steps.{This};

use crate::bits::told;
use crate::cells::put_answer;
use queries::Resolved;
use track::Span;
use tree::Refusal;

const CELLS: usize = 27;

// What is found: a style, or how many ids were reached.
fn tell_found(found: Resolved, out: &mut [u64], size: &mut [f32])
    requires { (27 ≤ length out.old) × (1 ≤ length size.old) }
    ensures { ToldAs (Ok found) out.old out.new size.old size.new 0 }
{
    match found {
        Resolved::NoStyle(n) => {
            let none = Span { place: 0, len: 0 };
            let blank = styles::blank();
            put_answer(out, size, 0, 0, n, none, blank)
        }
        Resolved::Style(s) => {
            let name = s.name;
            let look = s.look;
            put_answer(out, size, 0, 1, s.ids, name, look)
        }
    }
}

// Its number, 0 if it has none.
fn tell(answer: Result<Resolved, Refusal>, out: &mut [u64], size: &mut [f32]) -> u32
    requires { (27 ≤ length out.old) × (1 ≤ length size.old) }
    ensures { ToldAs answer out.old out.new size.old size.new result }
{
    match answer {
        Err(r) => {
            let none = Span { place: 0, len: 0 };
            let blank = styles::blank();
            put_answer(out, size, r.place, 0, 0, none, blank);
            r.number
        }
        Ok(found) => {
            tell_found(found, out, size);
            0
        }
    }
}

// Are there 27 cells and a float?
fn has_room(out: &[u64], size: &[f32]) -> bool
    ensures { result ≡ (leb 27 (length out.now) && leb 1 (length size.now)) }
{
    CELLS <= out.len() && !size.is_empty()
}

fn clear_answer(out: &mut [u64], size: &mut [f32])
    ensures out_after { out.new ≡ replicate (length out.old) 0 }
    ensures size_after { size.new ≡ replicate (length size.old) (fin false 0 (pos 0)) }
{
    out.fill(0);
    size.fill(0.0);
}

// What a query answered, told; without room for it number 1, and every cell is 0.
pub fn tell_style(
    answer: Result<Resolved, Refusal>,
    ids: &mut [u32],
    out: &mut [u64],
    size: &mut [f32],
) -> u64
    ensures { AnswersInC (This answer ids.old) ids.old ids.new out.old out.new
        size.old size.new result }
{
    let room = has_room(out, size);
    clear_answer(out, size);
    if !room {
        scan::clear(ids);
        return told(1, 0);
    }
    told(tell(answer, out, size), 0)
}
