//! Rows that are also played with memory refused: their files, and their lines, also those of a
//! file that is cut.

use crate::runs::TestFile;
use replay_program::Form;

/// The files of a row and what they give.
pub struct TestRow<'a> {
    pub files: &'a [TestFile<'a>],
    /// The form of printed answers.
    pub form: Form,
    /// The lines with ample memory.
    pub lines: &'a str,
    /// The lines if a file, at its place, ends after the first 0, 1, .. of its frames.
    pub cut: &'a [&'a [&'a str]],
}

pub const SNAPSHOT_AT_WRITE: TestRow<'static> = TestRow {
    files: &[(&["-1>0", "0>100: W[a,b)", "100>200: R[a,b) @100"], b"")],
    form: Form::Words,
    lines: "0 0 empty\n0 100 committed\n0 200 committed\n",
    cut: &[&[
        "",
        "0 0 empty\n",
        "0 0 empty\n0 100 committed\n",
        "0 0 empty\n0 100 committed\n0 200 committed\n",
    ]],
};

pub const REPORT_HISTORY_HITS: TestRow<'static> = TestRow {
    files: &[(
        &[
            "-1>0",
            "0>100: W[a,b) W[e,f)",
            "100>200: W[c,d) @100; m R[a,b) R[c,d) R[e,f) @50",
        ],
        b"",
    )],
    form: Form::Words,
    lines: "0 0 empty\n0 100 committed\n0 200 committed conflict:0,2\n",
    cut: &[&[
        "",
        "0 0 empty\n",
        "0 0 empty\n0 100 committed\n",
        "0 0 empty\n0 100 committed\n0 200 committed conflict:0,2\n",
    ]],
};

pub const HELD_REPEAT_ANSWERED_TWICE: TestRow<'static> = TestRow {
    files: &[(&["-1>0", "100>200", "100>200", "0>100"], b"")],
    form: Form::Words,
    lines: "0 0 empty\n0 100 empty\n0 200 empty\n0 200 empty\n",
    cut: &[&[
        "",
        "0 0 empty\n",
        "0 0 empty\n0 200 held\n",
        "0 0 empty\n0 200 held\n0 200 held\n",
        "0 0 empty\n0 100 empty\n0 200 empty\n0 200 empty\n",
    ]],
};

pub const HELD_OVERTAKEN: TestRow<'static> = TestRow {
    files: &[(&["-1>0", "150>300", "100>200", "0>100"], b"")],
    form: Form::Words,
    lines: "0 0 empty\n0 100 empty\n0 200 empty\n0 300 never\n",
    cut: &[&[
        "",
        "0 0 empty\n",
        "0 0 empty\n0 300 held\n",
        "0 0 empty\n0 200 held\n0 300 held\n",
        "0 0 empty\n0 100 empty\n0 200 empty\n0 300 never\n",
    ]],
};

pub const SECOND_FILE_CONTINUES_CHAIN: TestRow<'static> = TestRow {
    files: &[
        (&["-1>0", "0>100: W[a,b)"], b""),
        (&["100>200: R[a,b) @100"], b""),
    ],
    form: Form::Words,
    lines: "0 0 empty\n0 100 committed\n1 200 committed\n",
    cut: &[
        &[
            "1 200 held\n",
            "0 0 empty\n1 200 held\n",
            "0 0 empty\n0 100 committed\n1 200 committed\n",
        ],
        &[
            "0 0 empty\n0 100 committed\n",
            "0 0 empty\n0 100 committed\n1 200 committed\n",
        ],
    ],
};

/// The frames of docs/WIRE.md.
pub const FIRST_RUN_IN_FRAMES: TestRow<'static> = TestRow {
    files: &[(&["-1>0", "0>100: W[a,b)"], b"")],
    form: Form::Frames,
    lines: "0 0 0000000b0200000000000000000000\n0 100 0000000e0200000000000000640001020000\n",
    cut: &[&[
        "",
        "0 0 0000000b0200000000000000000000\n",
        "0 0 0000000b0200000000000000000000\n0 100 0000000e0200000000000000640001020000\n",
    ]],
};
