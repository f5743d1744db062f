//! Ranges of a single key.

ghost use Rattle.std.specs.Prelude.{◌≡◌};
ghost use Rattle.keys.specs.Range.{is_single_key};

use crate::key::MAX_KEY_LENGTH;

/// The greatest length of a single key, in bytes. Its end has one byte more.
pub const MAX_SINGLE_KEY_LENGTH: usize = MAX_KEY_LENGTH - 1;

/// Returns `true` if a range with these ends holds its begin alone: it ends with the key right
/// after that, which is the begin and one zero byte.
pub fn is_single_key(begin: &[u8], end: &[u8]) -> bool
    ensures exact { result ≡ is_single_key begin.now end.now }
{
    let Some((last, front)) = end.split_last() else {
        return false;
    };
    *last == 0 && front == begin
}
