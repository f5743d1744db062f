//! Which transactions report, by the arguments.

ghost use Rattle.std.specs.Prelude.{◌≡◌, IfSome, None};
ghost use Rattle.clap.specs.Words.{found_of, rows_of};
ghost use Rattle.replay_arguments.specs.Arguments.{HasReports, HoldsReports, reports_all};

use clap::ArgMatches;
use replay_output::Reports;

/// Returns which transactions report. `clap` always gives `--report-all` a value.
pub fn reports_of(matches: &ArgMatches) -> Option<Reports>
    ensures reports { IfSome result (HoldsReports (rows_of (found_of matches.now))) }
    ensures none { result ≡ None → ¬ HasReports (rows_of (found_of matches.now)) }
{
    let all: bool = matches.get_one("report-all")?;
    Some(reports(all))
}

// Returns which transactions report, if all of them do or not.
fn reports(all: bool) -> Reports
    ensures all { reports_all result ≡ all }
{
    if all { Reports::All } else { Reports::Asked }
}
