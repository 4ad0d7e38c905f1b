#![tactic(auto)]

// Every entry point, and every function of `lane` that C is given, called on free slices. No function here has a `requires`, so none of those can have one: what it asked, its
// caller could not show. The program calls each with no bytes at all and prints what it answered.
use refusal::Answer;
use sheet::sheet::SHEET_ROOM;

fn check(image: &[u8]) -> Answer {
    table::check::check(image)
}

fn find(image: &[u8], tag: &[u8]) -> Answer {
    table::lookup::find(image, tag)
}

fn show<'a, 'b>(image: &'a [u8], tag: &'b [u8]) -> &'a [u8] {
    table::lookup::show(image, tag)
}

fn fresh(image: &[u8], state: &mut [u8]) -> Answer {
    engine::fresh::fresh(image, state)
}

fn scan(
    image: &[u8],
    state: &mut [u8],
    frame: &[u8],
    report: &mut [u8],
    journal: &mut [u8],
) -> Answer {
    engine::scan::scan(image, state, frame, report, journal)
}

fn tidy(image: &[u8], out: &mut [u8]) -> Answer {
    tidy::tidy::tidy(image, out)
}

fn check_journal(image: &[u8], journal: &[u8]) -> Answer {
    journal::check::check_journal(image, journal)
}

fn totals(input: &[u8], out: &mut [u8; SHEET_ROOM]) -> usize {
    sheet::totals::totals(input, out)
}

fn lane_check(image: &[u8]) -> u64 {
    lane::lane_check(image)
}

fn lane_find(image: &[u8], tag: &[u8]) -> u64 {
    lane::lane_find(image, tag)
}

fn lane_fresh(image: &[u8], state: &mut [u8]) -> u64 {
    lane::lane_fresh(image, state)
}

fn lane_scan(
    image: &[u8],
    state: &mut [u8],
    frame: &[u8],
    report: &mut [u8],
    journal: &mut [u8],
) -> u64 {
    lane::lane_scan(image, state, frame, report, journal)
}

fn lane_tidy(image: &[u8], out: &mut [u8]) -> u64 {
    lane::lane_tidy(image, out)
}

fn lane_check_journal(image: &[u8], journal: &[u8]) -> u64 {
    lane::lane_check_journal(image, journal)
}

// Standard output is written in pieces, here and below: the text of one `print!` or `println!`.
// A piece is a write of its own that is tried for itself, so what a failed write leaves out is that piece alone.
fn print_answer(rt: &impl Print, name: &str, answer: Answer) {
    let outcome = if answer.is_ok() {
        "accepted"
    } else {
        "refused"
    };
    let _ = println!(rt; "{name}: {outcome}");
}

// The name is a piece, and the rest of the line another.
fn print_checked(rt: &impl Print, name: &str, answer: Answer) {
    let _ = print!(rt; "{name}");
    print_answer(rt, "", answer);
}

fn print_length(rt: &impl Print, name: &str, length: usize) {
    let _ = print!(rt; "{name}: ");
    let _ = print!(rt; "{length}");
    let _ = println!(rt; " bytes");
}

fn print_packed(rt: &impl Print, name: &str, answer: u64) {
    let _ = print!(rt; "{name}");
    let _ = print!(rt; ": refused ");
    let _ = print!(rt; "{}", answer / lane::NUMBER_WEIGHT);
    let _ = println!(rt;);
}

fn entry_points(rt: &impl Print) {
    let none = [0u8; 0];
    let mut state = [0u8; 0];
    let mut report = [0u8; 0];
    let mut journal = [0u8; 0];
    let mut out = [0u8; 0];
    let mut text = [0u8; SHEET_ROOM];
    print_checked(rt, "check", check(&none));
    print_answer(rt, "find", find(&none, &none));
    print_length(rt, "show", show(&none, &none).len());
    print_checked(rt, "fresh", fresh(&none, &mut state));
    let scanned = scan(&none, &mut state, &none, &mut report, &mut journal);
    print_answer(rt, "scan", scanned);
    print_checked(rt, "tidy", tidy(&none, &mut out));
    print_answer(rt, "check_journal", check_journal(&none, &none));
    print_length(rt, "totals", totals(&none, &mut text));
}

fn exports(rt: &impl Print) {
    let none = [0u8; 0];
    let mut state = [0u8; 0];
    let mut report = [0u8; 0];
    let mut journal = [0u8; 0];
    let mut out = [0u8; 0];
    print_packed(rt, "lane_check", lane_check(&none));
    print_packed(rt, "lane_find", lane_find(&none, &none));
    print_packed(rt, "lane_fresh", lane_fresh(&none, &mut state));
    let scanned = lane_scan(&none, &mut state, &none, &mut report, &mut journal);
    print_packed(rt, "lane_scan", scanned);
    print_packed(rt, "lane_tidy", lane_tidy(&none, &mut out));
    print_packed(rt, "lane_check_journal", lane_check_journal(&none, &none));
}

fn print_all(rt: &impl Print) {
    entry_points(rt);
    exports(rt);
}

fn main(rt: HostRuntime) {
    print_all(&rt);
}
