//! Why a value of a line is refused.

use thiserror::Error;

/// Why a value of a line is refused.
#[derive(Debug, Drop, PartialEq, Eq, Error)]
pub enum Cause {
    /// Memory was refused. This is no fault of the line.
    #[error("memory was refused")]
    Memory,
    /// The line is no JSON value, or nests deeper than 128 arrays and objects, or isn't UTF-8.
    #[error("not JSON")]
    NotJson,
    #[error("not an object")]
    NotObject,
    #[error("not an array")]
    NotArray,
    #[error("not a number")]
    NotNumber,
    /// The number has a point or an exponent, or doesn't fit 64 bits.
    #[error("not a whole number of 64 bits")]
    NotInteger,
    #[error("neither true nor false")]
    NotBool,
    #[error("neither a key nor a pair of keys")]
    NotRange,
    #[error("not a string")]
    NotString,
    #[error("not \"committed\", \"conflict\", \"tooold\" or an object")]
    NotVerdict,
    /// A character that a key doesn't show as it is, such as a control character or one beyond
    /// ASCII.
    #[error("character that isn't printable ASCII: write its bytes as \\\\xNN")]
    NotPrintable,
    /// A backslash in a key that begins neither `\\` nor `\xNN`.
    #[error("backslash that begins neither \\\\\\\\ nor \\\\xNN")]
    Escape,
    #[error("key is longer than 10,001 bytes")]
    KeyLength,
    #[error("single key is longer than 10,000 bytes")]
    SingleKeyLength,
    #[error("begin is above end")]
    Inverted,
    /// A version or a snapshot is outside its limits.
    #[error("below 0")]
    Negative,
    #[error("below -1")]
    BelowNone,
    #[error("not above the previous version")]
    NotAbove,
    #[error("not below the version")]
    NotBelow,
    #[error("more than 4,096 items")]
    ManyTxns,
    #[error("more than 1,024 items")]
    ManyRanges,
    /// A place of a report isn't below 1,024, or not above the one before it.
    #[error("not a place above the one before it and below 1,024")]
    NotPlace,
    /// The object has a member that it may not have. The name is as keys are printed, and cut.
    #[error("unknown member \"{0}\"")]
    Unknown(String),
    /// The object has two members of this name.
    #[error("doubled member \"{0}\"")]
    Doubled(String),
    #[error("missing")]
    Missing,
}
