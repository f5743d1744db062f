//! The page that shows a tally: one file of HTML, with plots as SVG and without scripts.

use crate::bins::bins_of;
use crate::plots::{Verdicts, put_plot};
use crate::share::share_of;
use crate::style::{END, HEAD};
use crate::tables::{put_ages, put_hot, put_sizes};
use crate::tally::Tally;
use crate::top::hottest;
use crate::totals::{Totals, totals_between};
use std::alloc::{AllocError, Global};
use std::fmt::Write as _;

// The most ranges that are shown.
const MOST_HOT: usize = 20;

/// What was read, and not only counted where batches and replies meet.
#[derive(Clone, Copy, Debug, PartialEq, Eq)]
pub struct ReportInputs {
    pub batches: u64,
    pub replies: u64,
}

/// Returns the page of a tally.
pub fn page_of(alloc: Global, tally: &Tally, inputs: ReportInputs) -> Result<String, AllocError> {
    let totals = totals_between(&tally.rows, i64::MIN, i64::MAX);
    let bins = bins_of(alloc, &tally.rows)?;
    let hot = hottest(alloc, &tally.txns.heat, MOST_HOT)?;
    let mut out = String::new(alloc);
    out.push_str(HEAD)?;
    put_inputs(&mut out, inputs, &totals)?;
    put_verdicts(&mut out, &totals)?;
    put_plot(&mut out, Verdicts::Conflicts, &bins)?;
    put_plot(&mut out, Verdicts::TooOld, &bins)?;
    put_ages(&mut out, &tally.txns.ages)?;
    put_sizes(&mut out, &tally.rows)?;
    put_hot(&mut out, &totals, &hot)?;
    out.push_str(END)?;
    Ok(out)
}

fn put_inputs(out: &mut String, inputs: ReportInputs, totals: &Totals) -> Result<(), AllocError> {
    let counted = totals.batches as u64;
    let batches = inputs.batches.saturating_sub(counted);
    let replies = inputs.replies.saturating_sub(counted);
    writeln!(out, "<p>{counted} batches with their replies.")?;
    if batches > 0 {
        writeln!(
            out,
            "{batches} more batches aren't counted: repeats, or without a reply."
        )?;
    }
    if replies > 0 {
        writeln!(
            out,
            "{replies} more replies aren't counted: repeats, or without a batch."
        )?;
    }
    out.push_str("</p>\n")
}

fn put_verdicts(out: &mut String, totals: &Totals) -> Result<(), AllocError> {
    let refused = totals.conflicts.saturating_add(totals.too_old);
    let committed = totals.txns.saturating_sub(refused);
    out.push_str("<h2>Verdicts</h2>\n<table>\n")?;
    out.push_str("<tr><th>verdict</th><th>transactions</th><th>share</th></tr>\n")?;
    put_verdict(out, "committed", committed, totals.txns)?;
    put_verdict(out, "conflict", totals.conflicts, totals.txns)?;
    put_verdict(out, "too old", totals.too_old, totals.txns)?;
    put_verdict(out, "all", totals.txns, totals.txns)?;
    out.push_str("</table>\n")
}

fn put_verdict(out: &mut String, name: &str, count: usize, all: usize) -> Result<(), AllocError> {
    write!(out, "<tr><td>{name}</td><td>{count}</td><td>")?;
    put_share(out, count, all)?;
    out.push_str("</td></tr>\n")
}

/// Appends a share in percent.
pub fn put_share(out: &mut String, part: usize, entire: usize) -> Result<(), AllocError> {
    match share_of(part, entire) {
        Some(tenths) => write!(out, "{}.{} %", tenths / 10, tenths % 10),
        None => out.push_str("none"),
    }
}
