// The parameters of tt: those of IMSC 1 have a prefix of their own.
ghost use Rattle.std.specs.Prelude.{ℕ, ◌+◌, ◌*◌, ◌≤◌, ◌<◌, ◌≡◌, not, length};
ghost use Rattle.writer.specs.Puts.{Writes};
ghost use Rattle.writer.specs.Rows.{over};
ghost use Rattle.document.specs.Roots.{some_row, ParamReady, ParamsReady, imsc_row, flagged, prefix_text, param_text};

use names::Listed;
use writer::Out;

fn is_imsc(params: &[u32], strings: &[u8], i: usize) -> bool
    requires { ParamReady params.now strings.now i }
    ensures { result ≡ imsc_row params.now strings.now i }
{
    let x = records::param_at(params, i);
    let from = x.name.place;
    let end = from + x.name.len;
    names::contains(Listed::Imsc1Extension, &strings[from..end])
}

// Is one of the n parameters of IMSC 1, where the flag is set, or is one not, where it is not?
pub fn any_param(params: &[u32], strings: &[u8], n: usize, flag: bool) -> bool
    requires { ParamsReady params.now strings.now n }
    ensures { result ≡ some_row (λ (i : ℕ). flagged flag (imsc_row params.now strings.now i)) n 0 }
{
    for i in 0..n {
        if is_imsc(params, strings, i) == flag {
            return true;
        }
    }
    false
}

fn put_prefix(out: &mut Out<'_>, imsc: bool) -> Option<()>
    ensures { Writes (prefix_text imsc) out.old out.new result }
{
    if imsc {
        out.put(b" ittp:")
    } else {
        out.put(b" ttp:")
    }
}

// The parameter in row i.
fn write_param(params: &[u32], strings: &[u8], i: usize, out: &mut Out<'_>) -> Option<()>
    requires { ParamReady params.now strings.now i }
    ensures { Writes (param_text params.now strings.now i) out.old out.new result }
{
    let imsc = is_imsc(params, strings, i);
    let x = records::param_at(params, i);
    let from = x.name.place;
    let end = from + x.name.len;
    let value = x.value;
    put_prefix(out, imsc)?;
    out.put(&strings[from..end])?;
    out.span_attr(b"=\"", strings, value)
}

// The n parameters.
pub fn write_params(params: &[u32], strings: &[u8], n: usize, out: &mut Out<'_>) -> Option<()>
    requires { ParamsReady params.now strings.now n }
    ensures { Writes (over (param_text params.now strings.now) n 0) out.old out.new result }
{
    for i in 0..n {
        write_param(params, strings, i, out)?;
    }
    Some(())
}
