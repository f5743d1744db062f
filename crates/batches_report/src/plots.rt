//! Plots over versions.

use crate::bins::Bin;
use crate::page::put_share;
use crate::share::share_of;
use std::alloc::AllocError;
use std::fmt::Write as _;

// The height of the highest bar, in units of the plot.
const HEIGHT: usize = 1_000;

/// The verdicts whose share is plotted.
#[derive(Clone, Copy, Debug, PartialEq, Eq)]
pub enum Verdicts {
    Conflicts,
    TooOld,
}

impl Verdicts {
    fn title(self) -> &'static str {
        match self {
            Verdicts::Conflicts => "Conflicts over versions",
            Verdicts::TooOld => "Too old over versions",
        }
    }

    fn count(self, bin: &Bin) -> usize {
        match self {
            Verdicts::Conflicts => bin.totals.conflicts,
            Verdicts::TooOld => bin.totals.too_old,
        }
    }
}

/// Appends a heading, and a bar for each part of the versions: the share of its transactions that
/// have the verdict. The highest bar has the full height.
pub fn put_plot(out: &mut String, verdicts: Verdicts, bins: &[Bin]) -> Result<(), AllocError> {
    writeln!(out, "<h2>{}</h2>", verdicts.title())?;
    let mut greatest = 0;
    for bin in bins {
        greatest = greatest.max(tenths(verdicts, bin));
    }
    let (Some(first), Some(last)) = (bins.first(), bins.last()) else {
        return out.push_str("<p>none</p>\n");
    };
    if greatest == 0 {
        return out.push_str("<p>none</p>\n");
    }
    let top = (greatest / 10, greatest % 10);
    writeln!(
        out,
        "<p>Highest bar: {}.{} % of the transactions</p>",
        top.0, top.1
    )?;
    put_bars(out, verdicts, bins, greatest)?;
    let (first, last) = (first.first, last.last);
    writeln!(
        out,
        "<p class=\"ends\"><span>version {first}</span><span>version {last}</span></p>"
    )
}

fn put_bars(
    out: &mut String,
    verdicts: Verdicts,
    bins: &[Bin],
    greatest: usize,
) -> Result<(), AllocError> {
    let (title, width) = (verdicts.title(), bins.len());
    writeln!(
        out,
        "<svg class=\"plot\" viewBox=\"0 0 {width} {HEIGHT}\" preserveAspectRatio=\"none\" \
         role=\"img\" aria-label=\"{title}\">"
    )?;
    for (index, bin) in bins.iter().enumerate() {
        put_bar(out, verdicts, index, bin, greatest)?;
    }
    out.push_str("</svg>\n")
}

fn put_bar(
    out: &mut String,
    verdicts: Verdicts,
    index: usize,
    bin: &Bin,
    greatest: usize,
) -> Result<(), AllocError> {
    let height = scaled(tenths(verdicts, bin), greatest, HEIGHT);
    let top = HEIGHT.saturating_sub(height);
    let (first, last) = (bin.first, bin.last);
    let (count, txns) = (verdicts.count(bin), bin.totals.txns);
    write!(
        out,
        "<rect x=\"{index}\" y=\"{top}\" width=\"0.9\" height=\"{height}\">\
         <title>versions {first} to {last}: {count} of {txns}, "
    )?;
    put_share(out, count, txns)?;
    out.push_str("</title></rect>\n")
}

// Returns the share in tenths of a percent, or 0 if there are no transactions.
fn tenths(verdicts: Verdicts, bin: &Bin) -> usize {
    share_of(verdicts.count(bin), bin.totals.txns).unwrap_or(0)
}

/// Returns how long a bar is whose number is `number`, if that of the greatest number is `length`.
pub fn scaled(number: usize, greatest: usize, length: usize) -> usize {
    match number.checked_mul(length) {
        Some(product) => product.checked_div(greatest).unwrap_or(0),
        None => length,
    }
}
