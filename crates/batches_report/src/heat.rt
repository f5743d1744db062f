//! How many transactions each read range was in conflict for.

ghost use Rattle.std.specs.Prelude.{◌≡◌, ◌+◌, ℕ, List, OnOk, count_by, map, string_bytes};
ghost use Rattle.std.specs.Prelude.{if◌then◌else◌};
ghost use Rattle.std.specs.Str.{bytes_eq};
ghost use Rattle.batches_report.specs.Names.{is_among, names_at};

use crate::error::ReportError;
use crate::names::names_of;
use keyspace::{Entry, TxnRef};
use std::alloc::Global;
use std::collections::BTreeMap;

/// How many transactions each read range was in conflict for, by the name of the range.
#[derive(Debug, Drop)]
pub struct Heat {
    pub counts: BTreeMap<String, usize>,
}

impl Heat {
    ghost use Rattle.batches_report.specs.Heat.{heat_of};

    /// Creates it without ranges.
    pub fn new(alloc: Global) -> Self
        ensures cold { (name : List ℕ) → heat_of result name ≡ 0 }
    {
        Heat {
            counts: BTreeMap::new(alloc),
        }
    }

    /// Counts a transaction for the ranges that it read in conflict, once for each.
    pub fn add(&mut self, alloc: Global, txn: &TxnRef<'_>, entry: &Entry) -> Result<(), ReportError>
        ensures added { OnOk result ((name : List ℕ) → heat_of self.new name ≡ heat_of self.old name
            + (if is_among (names_at txn.now entry.now.places) name then 1 else 0)) }
    {
        let names = names_of(alloc, txn, entry.places.as_slice())?;
        self.add_names(alloc, &names)
    }

    // Counts a transaction for each of the names.
    fn add_names(&mut self, alloc: Global, names: &[String]) -> Result<(), ReportError>
        ensures added { OnOk result ((name : List ℕ) → heat_of self.new name ≡ heat_of self.old name
            + count_by (bytes_eq name) (map string_bytes names.now)) }
    {
        for name in names {
            self.add_name(alloc, name.as_str())?;
        }
        Ok(())
    }

    fn add_name(&mut self, alloc: Global, name: &str) -> Result<(), ReportError>
        ensures added { OnOk result ((other : List ℕ) → heat_of self.new other
            ≡ heat_of self.old other + (if bytes_eq other name.now then 1 else 0)) }
    {
        let before = self.counts.get(name).copied().unwrap_or(0);
        let Some(after) = before.checked_add(1) else {
            return Err(ReportError::Count);
        };
        let key = String::from_str(alloc, name)?;
        self.counts.insert(key, after)?;
        Ok(())
    }
}
