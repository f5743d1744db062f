//! The tables that a frame of a batch fills.

ghost use Rattle.std.specs.Prelude.{vec_len};
ghost use Rattle.keyspace.specs.storage.Tables.{AreRows, AreRows-prop};

use keyspace::{Row, Span};

/// What a frame says, as long as its keys lie in it.
#[derive(Debug, Drop)]
pub struct FrameTables {
    pub previous: i64,
    pub version: i64,
    pub received: i64,
    /// Where each range lies in the frame.
    pub spans: Vec<Span>,
    /// Each transaction, and which spans it has.
    pub rows: Vec<Row>,
    ghost rows_fit: { AreRows 0 rows.items (vec_len spans) } by { AreRows-prop 0 rows.items
        (vec_len spans) },
}
