//! Rows of options, which are read from the words of a command line.

use crate::files::FIRST_RUN;
use crate::runs::{FileRow, give};
use std::test::Fail;

const ROWS: &[FileRow<'static>] = &[
    FileRow {
        name: "snapshot_at_write by lanes of one",
        options: "--capacity 1",
        files: &[(&["-1>0", "0>100: W[a,b)", "100>200: R[a,b) @100"], b"")],
        expected: "0 0 empty\n0 100 committed\n0 200 committed\ndone: ",
    },
    FileRow {
        name: "window_one",
        options: "--window 1",
        files: &[(
            &["-1>0", "0>100: W[a,b)", "100>101: R[a,b) @99; R[a,b) @100"],
            b"",
        )],
        expected: "0 0 empty\n0 100 committed\n0 101 tooold committed\ndone: ",
    },
    // A read far behind what was written.
    FileRow {
        name: "window_largest",
        options: "--window 1099511627776",
        files: &[(&["-1>0", "0>100: W[a,b)", "100>9000000: R[a,b) @99"], b"")],
        expected: "0 0 empty\n0 100 committed\n0 9000000 conflict\ndone: ",
    },
    FileRow {
        name: "window_largest, without the option",
        options: "",
        files: &[(&["-1>0", "0>100: W[a,b)", "100>9000000: R[a,b) @99"], b"")],
        expected: "0 0 empty\n0 100 committed\n0 9000000 tooold\ndone: ",
    },
    FileRow {
        name: "report_all",
        options: "--report-all",
        files: &[(
            &[
                "-1>0",
                "0>100: W[a,b)",
                "100>200: R[x,y) R[a,b) @99; m R[a,b) @99",
            ],
            b"",
        )],
        expected: "0 0 empty\n0 100 committed\n0 200 conflict:1 conflict:0\ndone: ",
    },
    FileRow {
        name: "report_all, without the option",
        options: "",
        files: &[(
            &[
                "-1>0",
                "0>100: W[a,b)",
                "100>200: R[x,y) R[a,b) @99; m R[a,b) @99",
            ],
            b"",
        )],
        expected: "0 0 empty\n0 100 committed\n0 200 conflict conflict:0\ndone: ",
    },
    FileRow {
        name: "limit_three_stop",
        options: "--limit 3",
        files: &[(&["-1>0", "0>100: W[a,b)", "100>200: W[c,d) @100"], b"")],
        expected: "0 0 empty\n0 100 committed\nfailed: replay: stop 3 ArenaFull\n",
    },
    FileRow {
        name: "limit_three_swept",
        options: "--limit 3",
        files: &[(&["-1>0", "0>100: W[a,b)", "100>5000101: W[c,d) @100"], b"")],
        expected: "0 0 empty\n0 100 committed\n0 5000101 committed\ndone: ",
    },
    FileRow {
        name: "limit_one",
        options: "--limit 1",
        files: &[(&["-1>0", "0>100: W[a,a)"], b"")],
        expected: "0 0 empty\n0 100 committed\ndone: ",
    },
    FileRow {
        name: "limit_one, a range that isn't empty",
        options: "--limit 1",
        files: &[(&["-1>0", "0>100: W[a,b)"], b"")],
        expected: "0 0 empty\nfailed: replay: stop 3 ArenaFull\n",
    },
    FileRow {
        name: "reply_frame_of_empty_batch",
        options: "--frames",
        files: &[(&["-1>0"], b"")],
        expected: "0 0 0000000b0200000000000000000000\ndone: ",
    },
    FileRow {
        name: "first run as frames",
        options: "--frames",
        files: &[(&[], FIRST_RUN)],
        expected: "0 0 0000000b0200000000000000000000\n\
                   0 100 0000000e0200000000000000640001020000\ndone: ",
    },
];

#[test]
fn rows_of_options(rt: HostRuntime) -> Result<(), Fail> {
    give(&rt, rt.alloc(), ROWS)
}
