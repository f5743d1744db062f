//! How many resolvers the arguments ask for, and by which split points.

ghost use Rattle.std.specs.Prelude.{◌≡◌, ◌≤◌, ◌↔◌, IfOk, IfSome, IsTrue, None, OnErr, false};
ghost use Rattle.clap.specs.Words.{found_of, rows_of};
ghost use Rattle.replay_arguments.specs.Arguments.{HasResolvers, HasSharding, HoldsExplain};
ghost use Rattle.replay_arguments.specs.Arguments.{HoldsReports, HoldsResolvers, HoldsSharding};
ghost use Rattle.replay_arguments.specs.Arguments.{HoldsStream, HoldsTop};
ghost use Rattle.replay_output.specs.declared.options.reports.Reports.TheVariants.{Asked};

use crate::arguments::details::Details;
use crate::arguments::input::inputs_of;
use crate::arguments::mistake::Mistake;
use crate::arguments::print_options::Printing;
use clap::ArgMatches;
use replay_output::Reports;

/// The greatest number that `--resolvers` takes.
pub const MAX_RESOLVERS: usize = 16;

/// How many resolvers there are, each with a shard of the keys, and by which split points.
#[derive(Clone, Copy, Debug, PartialEq, Eq)]
pub struct Sharding<'a> {
    /// The number of resolvers, from 1 to [`MAX_RESOLVERS`]. With several of them, no file is
    /// standard input, the task is neither to explain nor to stream nor to list ranges, and only
    /// transactions that ask for it report.
    pub resolvers: usize,
    /// The name of the file of split points, if there is one. Only several resolvers have it.
    pub split_points: Option<&'a str>,
}

impl Sharding<'_> {
    /// Returns whether there is more than one resolver.
    pub fn is_several(&self) -> bool
        ensures several { IsTrue result ↔ (2 ≤ self.now.resolvers) }
    {
        self.resolvers > 1
    }
}

/// Returns the number of resolvers and the file of split points. An error is what several resolvers
/// can't have, or split points of one.
pub fn sharding_of<'a>(
    matches: &ArgMatches<'a>,
    printing: Printing,
    details: Details,
    reports: Reports,
) -> Result<Sharding<'a>, Mistake>
    ensures sharding { HoldsStream (rows_of (found_of matches.now)) printing.is_streamed
        → HoldsExplain (rows_of (found_of matches.now)) printing.explains
        → HoldsTop (rows_of (found_of matches.now)) details.top
        → HoldsReports (rows_of (found_of matches.now)) reports
        → IfOk result (HoldsSharding (rows_of (found_of matches.now))) }
    ensures none { OnErr result (
        HoldsStream (rows_of (found_of matches.now)) printing.is_streamed
        → HoldsExplain (rows_of (found_of matches.now)) printing.explains
        → HoldsTop (rows_of (found_of matches.now)) details.top
        → HoldsReports (rows_of (found_of matches.now)) reports
        → ¬ HasSharding (rows_of (found_of matches.now))) }
{
    let Some(resolvers) = resolvers_of(matches) else {
        return Err(Mistake::Number);
    };
    let split_points = matches.get_str("split-points");
    if resolvers == 1 {
        if split_points.is_some() {
            return Err(Mistake::SplitPoints);
        }
    } else if !are_shared(printing, details, reports) {
        return Err(Mistake::Resolvers);
    } else if inputs_of(matches.get_strs("FILE")) > 0 {
        return Err(Mistake::InputOfResolvers);
    }
    Ok(Sharding {
        resolvers,
        split_points,
    })
}

// Returns the number of resolvers, unless it is out of its range. `clap` refuses such numbers
// itself.
fn resolvers_of(matches: &ArgMatches) -> Option<usize>
    ensures resolvers { IfSome result (HoldsResolvers (rows_of (found_of matches.now))) }
    ensures none { result ≡ None → ¬ HasResolvers (rows_of (found_of matches.now)) }
{
    let resolvers: usize = matches.get_one("resolvers")?;
    if !is_within(resolvers) {
        return None;
    }
    Some(resolvers)
}

// Returns whether there may be that many resolvers.
fn is_within(resolvers: usize) -> bool
    ensures within { IsTrue result ↔ ((1 ≤ resolvers) × (resolvers ≤ MAX_RESOLVERS)) }
{
    (1..=MAX_RESOLVERS).contains(&resolvers)
}

// Returns whether several resolvers can do this task: their answers are combined once all have
// answered, and no one of them knows all writes. Their clips report as the batches ask.
fn are_shared(printing: Printing, details: Details, reports: Reports) -> bool
    ensures shared { IsTrue result ↔ ((printing.is_streamed ≡ false) × (printing.explains ≡ false)
        × (details.top ≡ None) × (reports ≡ Asked)) }
{
    !printing.is_streamed
        && !printing.explains
        && details.top.is_none()
        && reports == Reports::Asked
}
