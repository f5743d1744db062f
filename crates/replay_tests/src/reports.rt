//! Rows of reports.

use crate::runs::{FileRow, give};
use std::test::Fail;

const ROWS: &[FileRow<'static>] = &[
    FileRow {
        name: "same_batch_ignores_snapshot",
        options: "",
        files: &[(&["-1>0", "0>100: W[k,k\0); m R[k,k\0) @100"], b"")],
        expected: "0 0 empty\n0 100 committed conflict:0\ndone: ",
    },
    FileRow {
        name: "report_history_hits",
        options: "",
        files: &[(
            &[
                "-1>0",
                "0>100: W[a,b) W[e,f)",
                "100>200: W[c,d) @100; m R[a,b) R[c,d) R[e,f) @50",
            ],
            b"",
        )],
        expected: "0 0 empty\n0 100 committed\n0 200 committed conflict:0,2\ndone: ",
    },
    FileRow {
        name: "report_batch_place",
        options: "",
        files: &[(
            &[
                "-1>0",
                "0>100: W[a,b) W[e,f)",
                "100>200: W[c,d) @100; m R[a,b) R[c,d) R[e,f) @100",
            ],
            b"",
        )],
        expected: "0 0 empty\n0 100 committed\n0 200 committed conflict:1\ndone: ",
    },
    FileRow {
        name: "batch_place_skips_empty_range",
        options: "",
        files: &[(
            &["-1>0", "0>100: W[a,c) W[e,g); m R[c,e) R[b,b) R[f,h)"],
            b"",
        )],
        expected: "0 0 empty\n0 100 committed conflict:2\ndone: ",
    },
];

#[test]
fn rows_of_reports(rt: HostRuntime) -> Result<(), Fail> {
    give(&rt, rt.alloc(), ROWS)
}
