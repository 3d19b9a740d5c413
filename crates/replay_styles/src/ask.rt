// A query asked.
use queries::Resolved;
use track::Tables;
use tree::Refusal;

// The index of a cue: 2 bytes.
fn index(text: &[u8]) -> usize {
    crate::fields::byte(text, 0) as usize * 256 + crate::fields::byte(text, 1) as usize
}

// What a query of this kind answers.
fn ask(kind: u8, text: &[u8], t: &Tables<'_>, ids: &mut [u32]) -> Result<Resolved, Refusal> {
    match kind {
        b'V' => queries::resolve_referenced_style(text, t, ids),
        b'R' => queries::region_style(text, t, ids),
        _ => queries::effective_style_for_cue_index(t, index(text), ids),
    }
}

// Is what is told the answer?
pub fn is_answer(kind: u8, text: &[u8], told: &[u8], t: &Tables<'_>, ids: &mut [u32]) -> bool {
    let answer = ask(kind, text, t, ids);
    crate::answer::is_told(answer, text, t.strings, ids, told)
}
