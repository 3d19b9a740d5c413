#![tactic(auto)]
// Program `recaption` by another name, so that the gate also runs it on a film that is turned away.
fn main() {
    filter::run();
}
