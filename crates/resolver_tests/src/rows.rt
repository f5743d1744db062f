//! The worked rows that are played over a core and over lanes.

/// A call of a row.
#[derive(Clone, Copy)]
pub enum Call<'a> {
    /// This proxy's batch is taken.
    Admit(usize, &'a str),
    /// No proxy has a further batch.
    Finish,
}

/// An answer, after the proxy that is given it.
pub type Given<'a> = (usize, &'a str);

/// A call, and the answers that it makes.
pub type Step<'a> = (Call<'a>, &'a [Given<'a>]);

/// The steps of a row, of one or two proxies. It meets no stop.
pub type Row<'a> = &'a [Step<'a>];

pub const REPEAT_BY_ANOTHER_PROXY: Row<'static> = &[
    (Call::Admit(0, "-1>0"), &[(0, "0 empty")]),
    (Call::Admit(1, "0>100"), &[(1, "100 empty")]),
    (Call::Admit(0, "0>100"), &[(0, "100 never")]),
    (Call::Finish, &[]),
];

pub const HELD_REPEAT_ANSWERED_TWICE: Row<'static> = &[
    (Call::Admit(0, "-1>0"), &[(0, "0 empty")]),
    (Call::Admit(0, "100>200"), &[]),
    (Call::Admit(0, "100>200"), &[]),
    (
        Call::Admit(0, "0>100"),
        &[(0, "100 empty"), (0, "200 empty"), (0, "200 empty")],
    ),
    (Call::Finish, &[]),
];

pub const HELD_OVERTAKEN: Row<'static> = &[
    (Call::Admit(0, "-1>0"), &[(0, "0 empty")]),
    (Call::Admit(0, "150>300"), &[]),
    (Call::Admit(0, "100>200"), &[]),
    (
        Call::Admit(0, "0>100"),
        &[(0, "100 empty"), (0, "200 empty"), (0, "300 never")],
    ),
    (Call::Finish, &[]),
];

pub const LEAST_PREVIOUS_LEAVES_FIRST: Row<'static> = &[
    (Call::Admit(0, "-1>0"), &[(0, "0 empty")]),
    (Call::Admit(0, "150>160"), &[]),
    (Call::Admit(1, "100>200"), &[]),
    (Call::Admit(1, "50>55"), &[]),
    (
        Call::Admit(0, "0>100"),
        &[
            (0, "100 empty"),
            (1, "55 never"),
            (1, "200 empty"),
            (0, "160 never"),
        ],
    ),
    (Call::Finish, &[]),
];

const SNAPSHOT_AT_WRITE: Row<'static> = &[
    (Call::Admit(0, "-1>0"), &[(0, "0 empty")]),
    (Call::Admit(0, "0>100: W[a,b)"), &[(0, "100 committed")]),
    (
        Call::Admit(0, "100>200: R[a,b) @100"),
        &[(0, "200 committed")],
    ),
    (Call::Finish, &[]),
];

const REPORT_HISTORY_HITS: Row<'static> = &[
    (Call::Admit(0, "-1>0"), &[(0, "0 empty")]),
    (
        Call::Admit(0, "0>100: W[a,b) W[e,f)"),
        &[(0, "100 committed")],
    ),
    (
        Call::Admit(0, "100>200: W[c,d) @100; m R[a,b) R[c,d) R[e,f) @50"),
        &[(0, "200 committed conflict:0,2")],
    ),
    (Call::Finish, &[]),
];

// Over a lane of one its last answers are owed by the core: one lies in the lane, and one waits
// before it.
const CHAIN_OF_FIVE: Row<'static> = &[
    (Call::Admit(0, "-1>0"), &[(0, "0 empty")]),
    (Call::Admit(0, "0>100"), &[(0, "100 empty")]),
    (Call::Admit(0, "100>200: W[a,b)"), &[(0, "200 committed")]),
    (
        Call::Admit(0, "200>300: R[a,b) @100"),
        &[(0, "300 conflict")],
    ),
    (
        Call::Admit(0, "300>400: R[a,b) @200"),
        &[(0, "400 committed")],
    ),
    (Call::Finish, &[]),
];

// The second batch waits for the third. The last is held to the end.
const HELD_TO_THE_END: Row<'static> = &[
    (Call::Admit(0, "-1>0"), &[(0, "0 empty")]),
    (Call::Admit(0, "100>200: R[a,b) @100"), &[]),
    (
        Call::Admit(1, "0>100: W[a,b)"),
        &[(1, "100 committed"), (0, "200 committed")],
    ),
    (Call::Admit(1, "900>1000"), &[]),
    (Call::Finish, &[(1, "1000 held")]),
];

/// All of these.
pub const ROWS: [Row<'static>; 8] = [
    SNAPSHOT_AT_WRITE,
    REPORT_HISTORY_HITS,
    REPEAT_BY_ANOTHER_PROXY,
    HELD_REPEAT_ANSWERED_TWICE,
    HELD_OVERTAKEN,
    LEAST_PREVIOUS_LEAVES_FIRST,
    CHAIN_OF_FIVE,
    HELD_TO_THE_END,
];
