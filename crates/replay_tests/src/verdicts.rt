//! Rows of verdicts without a report.

use crate::runs::{FileRow, give};
use std::test::Fail;

const ROWS: &[FileRow<'static>] = &[
    FileRow {
        name: "snapshot_at_write",
        options: "",
        files: &[(&["-1>0", "0>100: W[a,b)", "100>200: R[a,b) @100"], b"")],
        expected: "0 0 empty\n0 100 committed\n0 200 committed\ndone: ",
    },
    FileRow {
        name: "snapshot_before_write",
        options: "",
        files: &[(&["-1>0", "0>100: W[a,b)", "100>200: R[a,b) @99"], b"")],
        expected: "0 0 empty\n0 100 committed\n0 200 conflict\ndone: ",
    },
    FileRow {
        name: "snapshot_at_edge",
        options: "",
        files: &[(&["-1>0", "0>100: W[a,b)", "100>5000100: R[a,b) @100"], b"")],
        expected: "0 0 empty\n0 100 committed\n0 5000100 committed\ndone: ",
    },
    FileRow {
        name: "snapshot_below_edge",
        options: "",
        files: &[(&["-1>0", "0>100: W[a,b)", "100>5000100: R[a,b) @99"], b"")],
        expected: "0 0 empty\n0 100 committed\n0 5000100 tooold\ndone: ",
    },
    FileRow {
        name: "write_only_far_ahead",
        options: "",
        files: &[(&["-1>0", "0>9000000: W[a,b)"], b"")],
        expected: "0 0 empty\n0 9000000 committed\ndone: ",
    },
    FileRow {
        name: "conflict_writes_do_not_count",
        options: "",
        files: &[(&["-1>0", "0>100: W[a,b); R[a,b) W[x,y); R[x,y)"], b"")],
        expected: "0 0 empty\n0 100 committed conflict committed\ndone: ",
    },
    FileRow {
        name: "touching_ranges_do_not_meet",
        options: "",
        files: &[(&["-1>0", "0>100: W[b,c)", "100>200: R[a,b)"], b"")],
        expected: "0 0 empty\n0 100 committed\n0 200 committed\ndone: ",
    },
    FileRow {
        name: "empty_read_range",
        options: "",
        files: &[(
            &[
                "-1>0",
                "0>100: W[a,z)",
                "100>200: R[m,m)",
                "200>5000100: R[m,m) @99",
            ],
            b"",
        )],
        expected: "0 0 empty\n0 100 committed\n0 200 committed\n0 5000100 tooold\ndone: ",
    },
];

#[test]
fn rows_of_verdicts(rt: HostRuntime) -> Result<(), Fail> {
    give(&rt, rt.alloc(), ROWS)
}
