//! Which recorded reply an expected one is matched with.

ghost use Rattle.std.specs.Prelude.{◌≡◌, ◌++◌, List, int_lt, length, map, IfOk, IsOk, OnOk};
ghost use Rattle.std.specs.List.{take_while};
ghost use Rattle.keyspace.specs.storage.InOrder.{NoneBefore, Rise};
ghost use Rattle.checking.specs.Difference.{differences, first_of, match_differences, matched_with};
ghost use Rattle.checking.specs.Difference.{unexpected_reply, version_of_reply};
ghost use Rattle.checking.specs.declared.difference.Difference.{Difference as DifferenceValue};
ghost use Rattle.keyspace.specs.declared.reply.Reply.{Reply as ReplyValue};

use crate::difference::Difference;
use crate::entries::compare_replies;
use keyspace::{Reply, sort_by_version};
use std::alloc::{AllocError, Global};

/// Returns the differences between the replies that are expected and those that were recorded, in
/// order of versions, what is unexpected last. Each of the two is sorted by version.
///
/// Takes time of the order of a sort, and no memory if there are no replies.
pub fn compare(
    alloc: Global,
    expected: &mut [Reply],
    recorded: &mut [Reply],
) -> Result<Vec<Difference>, AllocError>
    ensures differences { IfOk result (λ found. found.items
        ≡ differences expected.old recorded.old) }
    ensures none { length expected.old ≡ 0 → length recorded.old ≡ 0 → IsOk result }
{
    sort_by_version(alloc, expected)?;
    sort_by_version(alloc, recorded)?;
    match_sorted(alloc, expected, recorded)
}

// The differences between replies that are in order of versions.
fn match_sorted(
    alloc: Global,
    expected: &[Reply],
    recorded: &[Reply],
) -> Result<Vec<Difference>, AllocError>
    requires expected { Rise version_of_reply expected.now }
    requires recorded { Rise version_of_reply recorded.now }
    ensures differences { IfOk result (λ found. found.items
        ≡ match_differences expected.now recorded.now) }
    ensures none { length expected.now ≡ 0 → length recorded.now ≡ 0 → IsOk result }
{
    let mut differences = Vec::new(alloc);
    let mut unexpected = Vec::new(alloc);
    let mut rest = recorded;
    for reply in expected {
        let (before, others) = rest.split_at(count_before(reply, rest));
        push_unexpected(before, &mut unexpected)?;
        rest = match_first(alloc, reply, others, &mut differences)?;
    }
    push_unexpected(rest, &mut unexpected)?;
    differences.append(&mut unexpected)?;
    Ok(differences)
}

// Returns how many replies at the front have a lesser version than this one.
fn count_before(reply: &Reply, replies: &[Reply]) -> usize
    ensures before { result ≡ length
        (take_while (λ other. int_lt other.version reply.now.version) replies.now) }
{
    replies
        .iter()
        .take_while(|other| other.version < reply.version)
        .count()
}

// Compares the reply with the first of the recorded ones, if that is of its version, and returns
// the others.
fn match_first<'a>(
    alloc: Global,
    reply: &Reply,
    recorded: &'a [Reply],
    differences: &mut Vec<Difference>,
) -> Result<&'a [Reply], AllocError>
    requires from { NoneBefore version_of_reply reply.now.version recorded.now }
    requires rise { Rise version_of_reply recorded.now }
    ensures matched { IfOk result (λ rest. (continue_with : List ReplyValue → List DifferenceValue)
        → differences.new.items ++ continue_with rest.now
        ≡ differences.old.items ++ matched_with reply.now recorded.now continue_with
        (first_of reply.now.version recorded.now)) }
    ensures rises { IfOk result (λ rest. Rise version_of_reply rest.now) }
{
    match recorded.split_first() {
        Some((found, others)) if found.version == reply.version => {
            compare_replies(alloc, reply, found, differences)?;
            Ok(others)
        }
        _ => {
            differences.push(Difference::missing(reply))?;
            Ok(recorded)
        }
    }
}

// Appends an unexpected reply for each of these.
fn push_unexpected(
    replies: &[Reply],
    unexpected_ones: &mut Vec<Difference>,
) -> Result<(), AllocError>
    ensures pushed { OnOk result (unexpected_ones.new.items
        ≡ unexpected_ones.old.items ++ map unexpected_reply replies.now) }
    ensures none { length replies.now ≡ 0 → IsOk result }
{
    for reply in replies {
        unexpected_ones.push(Difference::unexpected(reply))?;
    }
    Ok(())
}
