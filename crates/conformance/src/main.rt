#![tactic(auto)]

// Runs fresh, scan and find on bytes and prints what they show: the worked examples of document 01 (its "Lane card"), two
// lanes with look-alike tags, and a refused scan between two accepted ones.
mod pieces; // text on standard output, in pieces
mod names; // steps, flags and events in words
mod frame; // frame entries
mod line; // the line of a call
mod single; // one block: its table, its fresh state, its scan
mod examples;
mod lanes;
mod refused;

fn run(rt: &impl Print) {
    examples::run(rt);
    let _ = println!(rt;);
    lanes::run(rt);
    let _ = println!(rt;);
    refused::run(rt);
}

fn main(rt: HostRuntime) {
    run(&rt);
}
