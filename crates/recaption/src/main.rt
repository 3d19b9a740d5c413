#![tactic(auto)]
// Reads TTML on standard input and writes it anew on standard output; on a refusal only the number, a blank, the place and LF.
fn main() {
    filter::run();
}
