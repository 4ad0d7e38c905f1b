// The worked examples of document 01, "Lane card": one block without wires, each case from fresh.
use crate::frame::{
    complete, error, off_complete, start_off, with_abort, with_job, with_limit, with_timeout,
    working,
};
use crate::line;
use crate::single::{ETRIG, ETRIG_A, ETRIG_TI, ETRIG_TO, LCON, fresh_state, image_of, scan};
use block::entry::Entry;
use kind::Kind;

// A case of one call.
fn one_call(rt: &impl Print, name: &str, kind: Kind, entry: Entry) {
    let image = image_of(kind);
    let mut state = fresh_state(rt, &image);
    scan(rt, name, &image, &mut state, entry);
}

// A case of two calls.
fn two_calls(rt: &impl Print, first: &str, second: &str, kind: Kind, one: Entry, two: Entry) {
    let image = image_of(kind);
    let mut state = fresh_state(rt, &image);
    scan(rt, first, &image, &mut state, one);
    scan(rt, second, &image, &mut state, two);
}

// C1 to C4: one job, and what start does after it.
fn one_job(rt: &impl Print) {
    let kind = Kind::from(ETRIG);
    one_call(rt, "C1", kind, start_off(working(0)));
    one_call(rt, "C2", kind, with_job(7, complete(0)));
    two_calls(
        rt,
        "C3.1",
        "C3.2",
        kind,
        with_job(7, complete(0)),
        with_job(0, working(0)),
    );
    two_calls(
        rt,
        "C4.1",
        "C4.2",
        kind,
        with_job(7, complete(0)),
        start_off(working(0)),
    );
}

// C5: start falls while the block works, and rises with another job.
fn next_job(rt: &impl Print) {
    let image = image_of(Kind::from(ETRIG));
    let mut state = fresh_state(rt, &image);
    scan(rt, "C5.1", &image, &mut state, with_job(7, working(0)));
    scan(rt, "C5.2", &image, &mut state, start_off(complete(0)));
    scan(rt, "C5.3", &image, &mut state, with_job(9, complete(0)));
}

// C6: alike on kind 5, and the other job is aborted.
fn aborted_job(rt: &impl Print) {
    let image = image_of(Kind::from(ETRIG_A));
    let mut state = fresh_state(rt, &image);
    scan(rt, "C6.1", &image, &mut state, with_job(7, working(0)));
    scan(rt, "C6.2", &image, &mut state, start_off(complete(0)));
    scan(rt, "C6.3", &image, &mut state, with_abort(9, complete(0)));
}

// C7 to C9: the time-out; "at" is the clock of the piece.
fn timeouts(rt: &impl Print) {
    let kind = Kind::from(ETRIG_TO);
    one_call(rt, "C7 at 100", kind, with_timeout(100, 0, working(100)));
    one_call(rt, "C7 at 101", kind, with_timeout(100, 0, working(101)));
    one_call(rt, "C8", kind, with_timeout(100, 0, complete(101)));
    one_call(rt, "C9", kind, with_timeout(100, 0, error(5, 101)));
}

// C10: the time limit.
fn time_limit(rt: &impl Print) {
    let entry = with_limit(50, working(50), working(51), working(52));
    one_call(rt, "C10", Kind::from(ETRIG_TI), entry);
}

// C11: the clock passes 4,294,967,295.
fn clock_wrap(rt: &impl Print) {
    let kind = Kind::from(ETRIG_TO);
    one_call(
        rt,
        "C11 at 4",
        kind,
        with_timeout(10, 4294967290, working(4)),
    );
    one_call(
        rt,
        "C11 at 5",
        kind,
        with_timeout(10, 4294967290, working(5)),
    );
}

// C12: a level block whose start falls.
fn withdrawn_job(rt: &impl Print) {
    two_calls(
        rt,
        "C12.1",
        "C12.2",
        Kind::from(LCON),
        with_job(0, working(0)),
        off_complete(working(0)),
    );
}

/// All cases.
pub fn run(rt: &impl Print) {
    line::heading(rt, "case", "job events");
    one_job(rt);
    next_job(rt);
    aborted_job(rt);
    timeouts(rt);
    time_limit(rt);
    clock_wrap(rt);
    withdrawn_job(rt);
}
