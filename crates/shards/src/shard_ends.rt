//! The keys at which a shard begins and ends, and how a range is cut to it.

ghost use Rattle.std.specs.Prelude.{◌≡◌, ◌||◌, ◌<◌, false, length, not, option_map, MatchOption};
ghost use Rattle.keys.specs.Key.{is_before};
ghost use Rattle.keys.specs.declared.range.Range.{Range};
ghost use Rattle.serial.specs.Shards.{ends_above, shards};
ghost use Rattle.shards.specs.Clips.{goes_to};
ghost use Rattle.shards.specs.Cut.{headed_key, shard_of_ends, IsCut};
ghost use Rattle.shards.specs.Reach.{ends_below, shard_at};

use crate::headed_key::HeadedKey;
use crate::split_points::SplitPoints;

/// The keys at which a shard begins and ends. The last shard has no end.
#[derive(Debug, Drop)]
pub(crate) struct ShardEnds<'a> {
    from: HeadedKey<'a>,
    to: Option<HeadedKey<'a>>,
}

/// Which keys of a clip are those at which the shard begins and ends. The others are those of the
/// range.
#[derive(Clone, Copy, Debug, PartialEq, Eq)]
pub(crate) struct Cut {
    pub begin: bool,
    pub end: bool,
}

impl<'a> ShardEnds<'a> {
    /// Returns the ends of the shard of this number.
    pub fn of(points: &'a SplitPoints, shard: usize) -> Self
        requires within { shard < length (shards points.now) }
        ensures shard { shard_of_ends result ≡ shard_at points.now shard }
    {
        ShardEnds {
            from: HeadedKey::new(points.first_key(shard)),
            to: headed(points.end_if_any(shard)),
        }
    }

    /// Returns how the range of these keys is cut to the shard, or `None` if it doesn't go there.
    /// Each key is compared with the ends of this shard alone, and only as far as that decides.
    pub fn cut(&self, begin: &[u8], end: &[u8]) -> Option<Cut>
        ensures cut { (range : Range) → range.begin ≡ begin.now → range.end ≡ end.now
            → MatchOption result (goes_to (shard_of_ends self.now) range ≡ false)
            (IsCut (shard_of_ends self.now) range) }
    {
        let begin = HeadedKey::new(begin);
        if !self.ends_after(&begin) {
            return None;
        }
        let end = HeadedKey::new(end);
        let is_cut = begin.is_before(&self.from);
        if !self.is_reached(is_cut, &end) {
            return None;
        }
        Some(Cut {
            begin: is_cut,
            end: self.ends_before(&end),
        })
    }

    // Returns whether a range that begins before the end of the shard reaches it. If it begins
    // before the shard too, its end decides.
    fn is_reached(&self, begins_before: bool, end: &HeadedKey<'_>) -> bool
        ensures reached { result
            ≡ (not begins_before || is_before (shard_of_ends self.now).from end.now.key.now) }
    {
        !begins_before || self.from.is_before(end)
    }

    // Returns whether the shard ends after the key.
    fn ends_after(&self, key: &HeadedKey<'_>) -> bool
        ensures above { result ≡ ends_above (shard_of_ends self.now).to key.now.key.now }
    {
        match &self.to {
            Some(to) => key.is_before(to),
            None => true,
        }
    }

    // Returns whether the shard ends before the key.
    fn ends_before(&self, key: &HeadedKey<'_>) -> bool
        ensures below { result ≡ ends_below (shard_of_ends self.now).to key.now.key.now }
    {
        match &self.to {
            Some(to) => to.is_before(key),
            None => false,
        }
    }
}

// Takes the head of the key, if there is one.
fn headed<'a>(key: Option<&'a [u8]>) -> Option<HeadedKey<'a>>
    ensures key { option_map headed_key result ≡ option_map (λ key. key.now) key.entry }
{
    match key {
        Some(key) => Some(HeadedKey::new(key)),
        None => None,
    }
}
