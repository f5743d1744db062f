//! Split points: keys that split all keys into shards.

ghost use Rattle.std.specs.Prelude.{◌≡◌, ◌≤◌, ◌<◌, ◌↔◌, ◌+◌, ℕ, List, [], not, length, slice_get};
ghost use Rattle.std.specs.Prelude.{nat_lt, option_map, vec_len, Some};
ghost use Rattle.std.specs.Prelude.{IfOk, IfSome, IsErrOf, IsSomeAnd, IsTrue, MatchOption};
ghost use Rattle.keys.specs.Key.{IsKey, is_before, IsAtMost, IsBefore};
ghost use Rattle.serial.specs.Shards.{IsRising, has_key, shards};
ghost use Rattle.shards.specs.Built.{end_or_empty};
ghost use Rattle.shards.specs.Reach.{shard_at, AreFirst};
ghost use Rattle.shards.specs.SplitPoints.{AreSplitPoints, IsFirstFall};

use crate::error::SplitPointsError;
use keys::Key;
use std::marker::Model;

/// The greatest number of split points: this project's own limit.
pub const MAX_SPLIT_POINTS: usize = 63;

const _: () = prove!(MAX_SPLIT_POINTS == 63);

/// Keys that split all keys into shards, in order: the first shard begins at the empty key, and
/// each other one at a split point. No key comes twice, and none is empty. Contracts see the list
/// of the keys.
#[derive(Debug, Drop)]
pub struct SplitPoints {
    points: Vec<Key>,
}

impl Model for SplitPoints {
    ghost use Rattle.std.specs.Prelude.{List, ℕ};
    ghost use Rattle.shards.specs.SplitPoints.{AreSplitPoints};

    ghost Value = { List (List ℕ) };

    ghost view = { λ s. s.points.items };

    ghost invariant = { λ s. AreSplitPoints s.points.items };
}

impl SplitPoints {
    // Takes keys that are known to be split points.
    pub(crate) fn new(points: Vec<Key>) -> Self
        requires points { AreSplitPoints points.items }
        ensures points { result ≡ points.items }
    {
        SplitPoints { points }
    }

    /// Takes keys as split points, or returns the first fault: [`SplitPointsError::TooMany`] above
    /// [`MAX_SPLIT_POINTS`] keys, else [`SplitPointsError::NotRising`] with the index of the first
    /// key that isn't after the one before it.
    pub fn checked(points: Vec<Key>) -> Result<Self, SplitPointsError>
        ensures points { IfOk result (λ split. split ≡ points.items) }
        ensures too_many { IsErrOf result SplitPointsError.TooMany
            ↔ (MAX_SPLIT_POINTS < vec_len points) }
        ensures not_rising { (index : ℕ) → IsErrOf result (SplitPointsError.NotRising index)
            ↔ (vec_len points ≤ MAX_SPLIT_POINTS) × IsFirstFall points.items index }
    {
        if points.len() > MAX_SPLIT_POINTS {
            return Err(SplitPointsError::TooMany);
        }
        if let Some(index) = first_fall(&points) {
            return Err(SplitPointsError::NotRising(index));
        }
        Ok(SplitPoints::new(points))
    }

    /// Returns the split points: strictly rising from the empty key, which is none of them.
    pub fn points(&self) -> &[Key]
        ensures points { result.now ≡ self.now }
    {
        &self.points
    }

    /// Returns the number of shards: one more than the split points, so from 1 to 64.
    pub fn shard_count(&self) -> usize
        ensures count { result ≡ length (shards self.now) }
        ensures points { AreSplitPoints self.now }
    {
        self.points.len() + 1
    }

    /// Returns the number of the shard that has the key, from 0. A split point itself lies in the
    /// shard that begins there.
    pub fn shard_of(&self, key: &[u8]) -> usize
        ensures shard { IsSomeAnd (slice_get (shards self.now) result)
            (λ shard. IsTrue (has_key shard key.now)) }
        ensures first { AreFirst (λ point. not (is_before key.now point)) self.now result }
        ensures points { AreSplitPoints self.now }
    {
        self.points
            .partition_point(|point| point.as_bytes().cmp(key).is_le())
    }

    /// Returns the number of the last shard that begins before the key, or this number, if it is
    /// greater. Most ranges end in the shard in which they begin, so one comparison decides.
    pub(crate) fn last_before(&self, first: usize, key: &[u8]) -> usize
        requires within { first ≤ length self.now }
        ensures from { first ≤ result }
        ensures within { result ≤ length self.now }
        ensures last { (index : ℕ) (point : List ℕ) → first ≤ index
            → slice_get self.now index ≡ Some point
            → is_before point key.now ≡ nat_lt index result }
        ensures points { AreSplitPoints self.now }
    {
        first_at_most(&self.points, first, key)
    }

    /// Returns the first key of the shard.
    pub(crate) fn first_key(&self, shard: usize) -> &[u8]
        requires within { shard < length (shards self.now) }
        ensures from { result.now ≡ (shard_at self.now shard).from }
        ensures is_key { IsKey result.now }
    {
        if shard == 0 {
            return &[];
        }
        self.points[shard - 1].as_bytes()
    }

    /// Returns the key at which the shard ends, if there is one. The last shard has none.
    pub(crate) fn end_if_any(&self, shard: usize) -> Option<&[u8]>
        ensures to { option_map (λ key. key.now) result ≡ (shard_at self.now shard).to }
    {
        match self.points.get(shard) {
            Some(point) => Some(point.as_bytes()),
            None => None,
        }
    }

    /// Returns the key at which the shard ends, or the empty key if it is the last one.
    pub(crate) fn end_key(&self, shard: usize) -> &[u8]
        ensures to { result.now ≡ end_or_empty (shard_at self.now shard).to }
        ensures is_key { IsKey result.now }
    {
        match self.points.get(shard) {
            Some(point) => point.as_bytes(),
            None => &[],
        }
    }
}

// Returns the index of the first key that isn't after the one before it, where the empty key is
// before the first.
fn first_fall(points: &[Key]) -> Option<usize>
    ensures fall { MatchOption result (IsRising [] points.now) (IsFirstFall points.now) }
{
    let mut before: &[u8] = &[];
    for (index, point) in points.iter().enumerate() {
        if point.as_bytes().cmp(before).is_le() {
            return Some(index);
        }
        before = point.as_bytes();
    }
    None
}

// Returns the index of the first of the points, from an index on, that doesn't come before the key.
fn first_at_most(points: &[Key], first: usize, key: &[u8]) -> usize
    requires within { first ≤ length points.now }
    ensures from { first ≤ result }
    ensures within { result ≤ length points.now }
    ensures before { (index : ℕ) (point : List ℕ) → first ≤ index → index < result
        → slice_get points.now index ≡ Some point → IsBefore point key.now }
    ensures next { IfSome (slice_get points.now result) (λ point. IsAtMost key.now point) }
{
    for index in first..points.len() {
        if key.cmp(points[index].as_bytes()).is_le() {
            return index;
        }
    }
    points.len()
}
