//! How a run is set up.

ghost use Rattle.std.specs.Prelude.{◌≡◌, ◌≤◌, ◌≤ℤ◌, ◌↔◌, IfSome, IsSome, pos};
ghost use Rattle.keyspace.specs.declared.TheConstants.{WINDOW};
ghost use Rattle.limits.specs.declared.settings.TheConstants.{MAX_CAPACITY, MAX_LIMIT, MAX_WINDOW};
ghost use Rattle.replay_output.specs.LineFilter.{all_lines};
ghost use Rattle.replay_output.specs.declared.options.form.Form.TheVariants.{Words};
ghost use Rattle.replay_output.specs.declared.options.reports.Reports.TheVariants.{Asked};

use keyspace::WINDOW;
use limits::{MAX_CAPACITY, MAX_LIMIT, MAX_WINDOW};

mod form;
mod line_filter;
mod quiet_options;
mod reports;
mod style;

pub use form::Form;
pub use line_filter::LineFilter;
pub use reports::Reports;
pub use style::Style;

/// How a run is set up, each option within its range.
#[derive(Clone, Copy, Debug, PartialEq, Eq)]
pub struct Options {
    /// How many batches, or answers, a lane holds at most.
    pub capacity: usize,
    /// How far back the resolver remembers writes, in versions.
    pub window: i64,
    /// How many boundaries its conflict set keeps at most.
    pub limit: usize,
    /// How answers are printed.
    pub style: Style,
    /// Which transactions report their read ranges in conflict.
    pub reports: Reports,
    ghost least_capacity: { 1 ≤ capacity },
    ghost most_capacity: { capacity ≤ MAX_CAPACITY },
    ghost least_window: { pos 1 ≤ℤ window },
    ghost most_window: { window ≤ℤ MAX_WINDOW },
    ghost least_limit: { 1 ≤ limit },
    ghost most_limit: { limit ≤ MAX_LIMIT },
}

impl Options {
    /// Returns these options if each number is within its range.
    pub fn new(
        capacity: usize,
        window: i64,
        limit: usize,
        style: Style,
        reports: Reports,
    ) -> Option<Self>
        ensures some { IsSome result ↔ ((1 ≤ capacity) × (capacity ≤ MAX_CAPACITY)
            × (pos 1 ≤ℤ window)
            × (window ≤ℤ MAX_WINDOW) × (1 ≤ limit) × (limit ≤ MAX_LIMIT)) }
        ensures capacity { IfSome result (λ options. options.capacity ≡ capacity) }
        ensures window { IfSome result (λ options. options.window ≡ window) }
        ensures limit { IfSome result (λ options. options.limit ≡ limit) }
        ensures style { IfSome result (λ options. options.style ≡ style) }
        ensures reports { IfSome result (λ options. options.reports ≡ reports) }
    {
        if !(1..=MAX_CAPACITY).contains(&capacity)
            || !(1..=MAX_WINDOW).contains(&window)
            || !(1..=MAX_LIMIT).contains(&limit)
        {
            return None;
        }
        Some(Options {
            capacity,
            window,
            limit,
            style,
            reports,
        })
    }
}

impl Default for Options {
    ghost is_default = { λ options. (options.capacity ≡ 16) × (options.window ≡ WINDOW)
        × (options.limit ≡ 1000000) × (options.style.form ≡ Words)
        × (options.style.filter ≡ all_lines) × (options.reports ≡ Asked) };

    fn default() -> Self {
        Options {
            capacity: 16,
            window: WINDOW,
            limit: 1_000_000,
            style: Style::all(Form::Words),
            reports: Reports::Asked,
        }
    }
}
