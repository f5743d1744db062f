//! Tests of `decode_batch`, `encode_batch` and `encode_batch_1`: the vectors of both wire versions.

use crate::rows::{Way, expect_rows};
use std::test::Fail;
use wire::WireVersion;

// Empty, and of one transaction with snapshot 0, no mark, no reads and the write [a,b).
const BATCHES_1: &str = "\
0000001b 01 ffffffffffffffff 0000000000000000 ffffffffffffffff 0000 => 31 bytes: -1>0 received -1
0000002e 01 0000000000000000 0000000000000064 ffffffffffffffff 0001 0000000000000000 00 0000 \
     0001 0001 61 0001 62 \
     => 50 bytes: 0>100 received -1; W[61,62) @0";

// As [`BATCHES_1`], in wire version 2, and with the write of the single key k.
const BATCHES_2: &str = "\
0000001b 03 ffffffffffffffff 0000000000000000 ffffffffffffffff 0000 => 31 bytes: -1>0 received -1
0000002f 03 0000000000000000 0000000000000064 ffffffffffffffff 0001 0000000000000000 00 0000 \
     0001 00 0001 61 0001 62 \
     => 51 bytes: 0>100 received -1; W[61,62) @0
0000002c 03 0000000000000000 0000000000000064 ffffffffffffffff 0001 0000000000000000 00 0000 \
     0001 01 0001 6b \
     => 48 bytes: 0>100 received -1; W[6b,6b00) @0";

// Version 0 with no entries; version 100, committed, and conflict with place 0; and one entry
// committed. The first and the last answer [`BATCHES_1`].
const REPLIES: &str = "\
0000000b 02 0000000000000000 0000 => 15 bytes: 0 empty
00000013 02 0000000000000064 0002 02 0000 00 0001 0000 => 23 bytes: 100 committed conflict:0
0000000e 02 0000000000000064 0001 02 0000 => 18 bytes: 100 committed";

#[test]
fn decoder_always_memory(rt: HostRuntime) -> Result<(), Fail> {
    let alloc = rt.alloc();
    expect_rows(&rt, alloc, Way::BatchBothWays(WireVersion::One), BATCHES_1)?;
    expect_rows(&rt, alloc, Way::BatchBothWays(WireVersion::Two), BATCHES_2)?;
    expect_rows(&rt, alloc, Way::ReplyBothWays, REPLIES)
}

// Frames that are refused, and some like them that are read.
const REFUSALS: &str = "\
=> 1 Short
000000 => 1 Short
00400001 => 2 Long
00400000 => 1 Short
00000000 => 10 Cut
00000001 02 => 3 Kind
0000001b 01 ffffffffffffffff 0000000000000000 ffffffffffffffff 00 => 1 Short
0000001a 01 ffffffffffffffff 0000000000000000 ffffffffffffffff 00 => 10 Cut
0000001c 01 ffffffffffffffff 0000000000000000 ffffffffffffffff 0000 00 => 4 Trailing
0000001b 01 fffffffffffffffe 0000000000000000 ffffffffffffffff 0000 => 5 Version
0000001b 01 ffffffffffffffff ffffffffffffffff ffffffffffffffff 0000 => 5 Version
0000001b 01 0000000000000000 0000000000000000 ffffffffffffffff 0000 => 5 Version
0000001b 01 ffffffffffffffff 0000000000000000 0000000000000000 0000 => 5 Version
0000001b 01 ffffffffffffffff 0000000000000000 ffffffffffffffff 1001 => 7 Count
0000001b 01 ffffffffffffffff 0000000000000000 ffffffffffffffff 0001 => 10 Cut
0000002e 01 0000000000000000 0000000000000064 ffffffffffffffff 0001 0000000000000000 02 0000 \
     0001 0001 61 0001 62 \
     => 6 Marks
0000002e 01 0000000000000000 0000000000000064 ffffffffffffffff 0001 0000000000000000 00 0401 \
     0001 0001 61 0001 62 \
     => 7 Count
0000002e 01 0000000000000000 0000000000000064 ffffffffffffffff 0001 0000000000000000 00 0000 \
     0001 2712 61 0001 62 \
     => 8 KeyLength
0000002e 01 0000000000000000 0000000000000064 ffffffffffffffff 0001 0000000000000000 00 0000 \
     0001 2711 61 0001 62 \
     => 10 Cut
0000002e 01 0000000000000000 0000000000000064 ffffffffffffffff 0001 0000000000000000 00 0000 \
     0001 0001 62 0001 61 \
     => 9 Inverted
0000002e 01 0000000000000000 0000000000000064 ffffffffffffffff 0001 0000000000000000 00 0000 \
     0001 0001 61 0002 62 \
     => 10 Cut
0000002d 01 0000000000000000 0000000000000064 ffffffffffffffff 0001 0000000000000000 00 0000 \
     0001 0001 61 0000 \
     => 9 Inverted
0000002e 01 0000000000000000 0000000000000064 ffffffffffffffff 0001 0000000000000000 00 0000 \
     0001 0001 62 0001 62 \
     => 50 bytes: 0>100 received -1; W[62,62) @0
0000001b 01 ffffffffffffffff 0000000000000000 ffffffffffffffff 0000 00 => 31 bytes: -1>0 received -1
0000001b 01 ffffffffffffffff 0000000000000000 ffffffffffffffff 0000 ffffffffffff => 31 bytes: \
     -1>0 received -1";

// The same of wire version 2.
const REFUSALS_2: &str = "\
0000002f 03 0000000000000000 0000000000000064 ffffffffffffffff 0001 0000000000000000 00 0000 \
     0001 02 0001 61 0001 62 \
     => 13 Form
00000030 03 0000000000000000 0000000000000064 ffffffffffffffff 0001 0000000000000000 00 0000 \
     0001 00 0001 6b 0002 6b00 \
     => 14 Spelling
0000002f 03 0000000000000000 0000000000000064 ffffffffffffffff 0001 0000000000000000 00 0000 \
     0001 00 0001 62 0001 61 \
     => 9 Inverted
0000002f 03 0000000000000000 0000000000000064 ffffffffffffffff 0001 0000000000000000 00 0000 \
     0001 00 0001 62 0001 62 \
     => 51 bytes: 0>100 received -1; W[62,62) @0
0000002c 03 0000000000000000 0000000000000064 ffffffffffffffff 0001 0000000000000000 00 0000 \
     0001 01 2711 6b \
     => 8 KeyLength
0000002c 03 0000000000000000 0000000000000064 ffffffffffffffff 0001 0000000000000000 00 0000 \
     0001 01 2710 6b \
     => 10 Cut
00000001 03 => 10 Cut";

#[test]
fn refusals_of_decode_batch(rt: HostRuntime) -> Result<(), Fail> {
    expect_rows(&rt, rt.alloc(), Way::Batch, REFUSALS)?;
    expect_rows(&rt, rt.alloc(), Way::Batch, REFUSALS_2)
}

const COUNTS: &str = "\
0000001b 01 ffffffffffffffff 0000000000000000 ffffffffffffffff 1000 => 10 Cut
0000001b 01 ffffffffffffffff 0000000000000000 ffffffffffffffff 1001 => 7 Count
0000001b 03 ffffffffffffffff 0000000000000000 ffffffffffffffff 1000 => 10 Cut
0000001b 03 ffffffffffffffff 0000000000000000 ffffffffffffffff 1001 => 7 Count";

#[test]
fn count_at_and_above_limit(rt: HostRuntime) -> Result<(), Fail> {
    expect_rows(&rt, rt.alloc(), Way::Batch, COUNTS)
}
