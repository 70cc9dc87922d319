//! The line of a summary.

use drill_schedule::Summary;

#[test]
fn a_summary_is_a_line(rt: HostRuntime) {
    let summary = Summary {
        sessions: 40,
        signed: 32,
        refused: 8,
        asks: 128,
        granted: 127,
        cuts: 1,
        restarts: 5,
        most: 6,
    };
    let line = summary.to_string(rt.alloc()).expect(&rt, "memory");
    let want = "sessions 40 signed 32 refused 8 asks 128 granted 127 cuts 1 restarts 5 most 6";
    assert!(rt; line.as_str() == want);
}
