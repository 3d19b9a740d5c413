#![tactic(auto)]
// All that program `recaption` does, as a function: the gate runs it as two programs, on a film that is taken and on one that is turned away.

// standard input
const STDIN_FILENO: i32 = 0;
// standard output
const STDOUT_FILENO: i32 = 1;
// standard error
const STDERR_FILENO: i32 = 2;

// Reads TTML on standard input and writes it anew on standard output; on a refusal only the number, a blank, the place and LF.
// It takes up to 1,350 KB of stack, most of it the tables: a shell's default of 8 MB is enough.
pub fn run() {
    // one byte more than a text may have: longer input meets 2
    let mut text = [0u8; 65537];
    let got = io::read_full(STDIN_FILENO, &mut text);
    let mut nodes = [0u32; 49152];
    let mut attrs = [0u32; 32768];
    let mut head = [0u32; 10];
    let mut params = [0u32; 256];
    let mut styles = [0u32; 6912];
    let mut regions = [0u32; 1024];
    let mut cues = [0u32; 22528];
    let mut times = [0i64; 4096];
    let mut segments = [0u32; 98304];
    let mut sizes = [0f32; 256];
    let mut extras = [0u32; 24576];
    let mut strings = [0u8; 65536];
    let mut texts = [0u8; 65536];
    let mut out = [0u8; 65536];
    let answer = rewritten::recaption(
        &text[..got],
        &mut nodes,
        &mut attrs,
        &mut head,
        &mut params,
        &mut styles,
        &mut regions,
        &mut cues,
        &mut times,
        &mut segments,
        &mut sizes,
        &mut extras,
        &mut strings,
        &mut texts,
        &mut out,
    );
    // the line of a refusal has at most 32 bytes, and so always fits
    if let Some(n) = printed::print(answer, &mut out) {
        send(&out[..n]);
    }
}

// A program has no exit status: what cannot be written is told on standard error.
fn send(printed: &[u8]) {
    if !io::write_all(STDOUT_FILENO, printed) {
        io::write_all(
            STDERR_FILENO,
            b"recaption: standard output cannot be written\n",
        );
    }
}
