//! What the arguments ask for.

ghost use Rattle.std.specs.Prelude.{◌≡◌, IfOk, IfSome, OnErr};
ghost use Rattle.clap.specs.Words.{found_of, rows_of};
ghost use Rattle.replay_arguments.specs.Asked.{HoldsAsked};
ghost use Rattle.replay_arguments.specs.Arguments.{HasNumbers, HoldsNumbers, IsOfNoUse};

use crate::arguments::details::{Details, details_of};
use crate::arguments::mistake::Mistake;
use crate::arguments::names::{Names, names_of};
use crate::arguments::print_options::{Printing, printing_of};
use crate::arguments::report_options::reports_of;
use crate::arguments::shard_options::{Sharding, sharding_of};
use clap::ArgMatches;
use replay_output::{Options, Reports, Style};

/// What the arguments ask for.
#[derive(Clone, Copy, Debug)]
pub struct Asked<'m, 'a> {
    pub printing: Printing,
    pub details: Details,
    pub options: Options,
    pub names: Names<'m, 'a>,
    pub sharding: Sharding<'a>,
}

/// Returns what the matches ask for, unless they are of no use.
pub fn asked_of<'m, 'a>(matches: &'m ArgMatches<'a>) -> Result<Asked<'m, 'a>, Mistake>
    ensures asked { IfOk result (HoldsAsked (rows_of (found_of matches.entry.now))) }
    ensures none { OnErr result (IsOfNoUse (rows_of (found_of matches.entry.now))) }
{
    let printing = printing_of(matches)?;
    let details = details_of(matches, printing)?;
    let Some(reports) = reports_of(matches) else {
        return Err(Mistake::ReportAll);
    };
    let Some(options) = options_of(matches, printing.style, reports) else {
        return Err(Mistake::Number);
    };
    let names = names_of(matches, printing)?;
    let sharding = sharding_of(matches, printing, details, reports)?;
    Ok(Asked {
        printing,
        details,
        options,
        names,
        sharding,
    })
}

// Returns the options with this style and these reports, unless a number is out of its range.
// `clap` refuses such numbers itself.
fn options_of(matches: &ArgMatches, style: Style, reports: Reports) -> Option<Options>
    ensures numbers { IfSome result (HoldsNumbers (rows_of (found_of matches.now))) }
    ensures style { IfSome result (λ options. options.style ≡ style) }
    ensures reports { IfSome result (λ options. options.reports ≡ reports) }
    ensures none { result ≡ None → ¬ HasNumbers (rows_of (found_of matches.now)) }
{
    Options::new(
        matches.get_one("capacity")?,
        matches.get_one("window")?,
        matches.get_one("limit")?,
        style,
        reports,
    )
}
