//! Tests of `decode_reply`.

use crate::rows::{Way, expect_rows};
use std::test::Fail;

// Frames that are refused, of which the first is that of a batch, and one that is read.
const REFUSALS: &str = "\
0000001b 01 ffffffffffffffff 0000000000000000 ffffffffffffffff 0000 => 3 Kind
0000000b 02 ffffffffffffffff 0000 => 5 Version
0000000e 02 0000000000000064 0001 03 0000 => 3 Kind
0000000e 02 0000000000000064 0001 02 0001 => 7 Count
00000013 02 0000000000000064 0002 02 0000 00 0001 0400 => 6 Marks
00000015 02 0000000000000064 0002 02 0000 00 0002 0000 0000 => 6 Marks
00000015 02 0000000000000064 0002 02 0000 00 0002 0000 0001 => 25 bytes: 100 committed conflict:0,1
00000014 02 0000000000000064 0002 02 0000 00 0001 0000 00 => 4 Trailing";

#[test]
fn refusals_of_decode_reply(rt: HostRuntime) -> Result<(), Fail> {
    expect_rows(&rt, rt.alloc(), Way::Reply, REFUSALS)
}
