//! Tables with bars.

use crate::ages::covered;
use crate::page::put_share;
use crate::plots::scaled;
use crate::row::TxnRow;
use crate::top::Hot;
use crate::totals::{Totals, batches_of_size};
use std::alloc::AllocError;
use std::fmt::Write as _;

// The length of the longest bar, in its own units.
const LENGTH: usize = 1_000;

// The most bytes of a name that are shown.
const MOST_BYTES: usize = 120;

// The windows that are tried, up to the greatest.
const WINDOWS: [i64; 37] = [
    1,
    2,
    5,
    10,
    20,
    50,
    100,
    200,
    500,
    1_000,
    2_000,
    5_000,
    10_000,
    20_000,
    50_000,
    100_000,
    200_000,
    500_000,
    1_000_000,
    2_000_000,
    5_000_000,
    10_000_000,
    20_000_000,
    50_000_000,
    100_000_000,
    200_000_000,
    500_000_000,
    1_000_000_000,
    2_000_000_000,
    5_000_000_000,
    10_000_000_000,
    20_000_000_000,
    50_000_000_000,
    100_000_000_000,
    200_000_000_000,
    500_000_000_000,
    1_000_000_000_000,
];

// The sizes that are counted together: the least and the greatest.
const SIZES: [(usize, usize); 14] = [
    (0, 0),
    (1, 1),
    (2, 3),
    (4, 7),
    (8, 15),
    (16, 31),
    (32, 63),
    (64, 127),
    (128, 255),
    (256, 511),
    (512, 1_023),
    (1_024, 2_047),
    (2_048, 4_095),
    (4_096, 4_096),
];

/// Appends how many of the transactions that were too old a larger window would cover.
pub fn put_ages(out: &mut String, ages: &[i64]) -> Result<(), AllocError> {
    let all = ages.len();
    out.push_str("<h2>Snapshot age of transactions that were too old</h2>\n")?;
    if all == 0 {
        return out.push_str("<p>none</p>\n");
    }
    out.push_str("<p>Transactions that aren't too old with a window of this many versions.</p>\n")?;
    out.push_str(
        "<table>\n<tr><th>window</th><th>transactions</th><th>share</th><th></th></tr>\n",
    )?;
    let mut before = 0;
    for window in &WINDOWS {
        let count = covered(ages, *window);
        if count > 0 && before < all {
            put_window(out, *window, count, all)?;
        }
        before = count;
    }
    out.push_str("</table>\n")
}

fn put_window(out: &mut String, window: i64, count: usize, all: usize) -> Result<(), AllocError> {
    write!(out, "<tr><td>{window}</td><td>{count}</td><td>")?;
    put_share(out, count, all)?;
    out.push_str("</td>")?;
    put_bar(out, count, all)
}

/// Appends how many batches have how many transactions.
pub fn put_sizes(out: &mut String, rows: &[TxnRow]) -> Result<(), AllocError> {
    out.push_str("<h2>Batch sizes</h2>\n<table>\n")?;
    out.push_str("<tr><th>transactions</th><th>batches</th><th>share</th><th></th></tr>\n")?;
    let all = rows.len();
    for (least, most) in &SIZES {
        let count = batches_of_size(rows, *least, *most);
        if count > 0 {
            put_size(out, *least, *most, count, all)?;
        }
    }
    out.push_str("</table>\n")
}

fn put_size(
    out: &mut String,
    least: usize,
    most: usize,
    count: usize,
    all: usize,
) -> Result<(), AllocError> {
    if least == most {
        write!(out, "<tr><td>{least}</td><td>{count}</td><td>")?;
    } else {
        write!(out, "<tr><td>{least} to {most}</td><td>{count}</td><td>")?;
    }
    put_share(out, count, all)?;
    out.push_str("</td>")?;
    put_bar(out, count, all)
}

/// Appends the read ranges that were in conflict most.
pub fn put_hot(out: &mut String, totals: &Totals, hot: &[Hot]) -> Result<(), AllocError> {
    let (reported, conflicts) = (totals.reported, totals.conflicts);
    out.push_str("<h2>Hot ranges</h2>\n")?;
    if reported < conflicts {
        writeln!(
            out,
            "<p>Sampled: {reported} of {conflicts} conflicts have a report of their reads.</p>"
        )?;
    }
    let Some(hottest) = hot.first() else {
        return out.push_str("<p>none</p>\n");
    };
    out.push_str("<p>Each transaction counts once for a range that it read in conflict.</p>\n")?;
    out.push_str("<table>\n<tr><th>range</th><th>transactions</th><th></th></tr>\n")?;
    for range in hot {
        out.push_str("<tr><td><code>")?;
        put_name(out, &range.name)?;
        write!(out, "</code></td><td>{}</td>", range.count)?;
        put_bar(out, range.count, hottest.count)?;
    }
    out.push_str("</table>\n")
}

// Appends a name, cut if it is long.
fn put_name(out: &mut String, name: &str) -> Result<(), AllocError> {
    for (index, byte) in name.as_bytes().iter().enumerate() {
        if index < MOST_BYTES {
            put_byte(out, *byte)?;
        }
    }
    if name.len() > MOST_BYTES {
        out.push_str("...")?;
    }
    Ok(())
}

fn put_byte(out: &mut String, byte: u8) -> Result<(), AllocError> {
    match byte {
        b'&' => out.push_str("&amp;"),
        b'<' => out.push_str("&lt;"),
        b'>' => out.push_str("&gt;"),
        _ => Ok(out.push(char::from(byte))?),
    }
}

// Appends the last cell of a row, with a bar.
fn put_bar(out: &mut String, number: usize, greatest: usize) -> Result<(), AllocError> {
    let length = scaled(number, greatest, LENGTH);
    writeln!(
        out,
        "<td class=\"wide\"><svg viewBox=\"0 0 {LENGTH} 10\" preserveAspectRatio=\"none\">\
         <rect width=\"{length}\" height=\"10\"/></svg></td></tr>"
    )
}
