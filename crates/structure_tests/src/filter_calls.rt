//! A growth of the filter that is refused.

use keys::key_hash;
use std::alloc::{AllocError, Global};
use std::test::Fail;
use stepmap::Filter;

// Writes a key at 100, a range at 150, a key at 200, and the first one again at an older version.
fn four_writes(alloc: Global) -> Result<Filter, AllocError> {
    let mut filter = Filter::new(alloc)?;
    filter.write_key(key_hash(b"first"), 100);
    filter.write_range(150);
    filter.write_key(key_hash(b"second"), 200);
    filter.write_key(key_hash(b"first"), 120);
    Ok(filter)
}

// Returns whether the bounds are those of these writes.
fn is_as_written(filter: &Filter) -> bool {
    filter.bound(b"first") == 150
        && filter.bound(b"second") == 200
        && filter.bound(b"neither") == 150
        && filter.newest_range() == 150
        && filter.is_useful()
}

// Its outcome is the same whichever one growth is refused: the next try succeeds.
#[test]
fn filter_with_one_growth_refused(rt: HostRuntime) -> Result<(), Fail> {
    let mut filter = match four_writes(rt.alloc()) {
        Ok(filter) => filter,
        Err(_refused) => four_writes(rt.alloc())?,
    };
    if filter.reserve(8_000).is_err() {
        assert!(rt; is_as_written(&filter));
        filter.reserve(8_000)?;
    }
    assert!(rt; is_as_written(&filter));
    Ok(())
}
