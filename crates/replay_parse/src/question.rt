// A question asked, and its answer held to what is told. The tables are filled before they are lent.
use crate::{answer, sums};
use tree::Refusal;

#[derive(Clone, Copy)]
enum Call {
    Parse,
    Cue,
    Recaption,
}

fn ask(
    call: Call,
    text: &[u8],
    nodes: &mut [u32; 49152],
    attrs: &mut [u32; 32768],
    head: &mut [u32; 10],
    params: &mut [u32; 256],
    styles: &mut [u32; 6912],
    regions: &mut [u32; 1024],
    cues: &mut [u32; 22528],
    times: &mut [i64; 4096],
    segments: &mut [u32; 98304],
    sizes: &mut [f32; 256],
    extras: &mut [u32; 24576],
    strings: &mut [u8; 65536],
    texts: &mut [u8; 65536],
    out: &mut [u8; 65536],
) -> Refusal {
    match call {
        Call::Parse => answer::of_read(reader::parse(
            text, nodes, attrs, head, params, styles, regions, cues, times, segments, sizes,
            extras, strings, texts,
        )),
        Call::Cue => answer::of_read(reader::bytes_to_cue(
            text, nodes, attrs, head, params, styles, regions, cues, times, segments, sizes,
            extras, strings, texts,
        )),
        Call::Recaption => {
            let written = rewritten::recaption(
                text, nodes, attrs, head, params, styles, regions, cues, times, segments, sizes,
                extras, strings, texts, out,
            );
            printed::print(written, out);
            answer::of_written(written)
        }
    }
}

// All cells are summed; of `recaption` all bytes lent for what is printed: those after it are 0.
fn call_agrees(call: Call, text: &[u8], told: &[u8]) -> bool {
    let mut nodes = [7u32; 49152];
    let mut attrs = [7u32; 32768];
    let mut head = [7u32; 10];
    let mut params = [7u32; 256];
    let mut styles = [7u32; 6912];
    let mut regions = [7u32; 1024];
    let mut cues = [7u32; 22528];
    let mut times = [7i64; 4096];
    let mut segments = [7u32; 98304];
    let mut sizes = [7.0f32; 256];
    let mut extras = [7u32; 24576];
    let mut strings = [7u8; 65536];
    let mut texts = [7u8; 65536];
    let mut out = [7u8; 65536];
    let met = ask(
        call,
        text,
        &mut nodes,
        &mut attrs,
        &mut head,
        &mut params,
        &mut styles,
        &mut regions,
        &mut cues,
        &mut times,
        &mut segments,
        &mut sizes,
        &mut extras,
        &mut strings,
        &mut texts,
        &mut out,
    );
    let sum = sums::of_answer(
        is_written(call),
        &nodes,
        &attrs,
        &head,
        &params,
        &styles,
        &regions,
        &cues,
        &times,
        &segments,
        &extras,
        &strings,
        &texts,
        &out,
    );
    answer::is_told(met, sum, told)
}

fn is_written(call: Call) -> bool {
    matches!(call, Call::Recaption)
}

// Do these libraries answer what the line says?
pub fn agrees(line: &[u8], text: &[u8]) -> bool {
    let mut given = [0u8; 512];
    let mut told = [0u8; 512];
    let fields = replaying::read_line(line, &mut given, &mut told);
    let call = match fields.kind {
        b'p' | b'P' => Call::Parse,
        b'c' | b'C' => Call::Cue,
        b'w' | b'W' => Call::Recaption,
        _ => return false,
    };
    call_agrees(call, text, &told[..fields.told])
}
