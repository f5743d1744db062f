//! The first bytes of keys: their heads, and how many bytes two of them begin with in common.

ghost use Rattle.std.specs.Prelude.{◌≡◌, ◌≢◌, ◌<◌, ◌≤◌, ◌+◌, ◌*◌, length, take, drop, slice_index};
ghost use Rattle.std.specs.Int.{w64, to_be_bytes};
ghost use Rattle.keys.specs.Head.{head_of};
ghost use Rattle.keys.specs.Key.{IsBytes};

/// Returns the first eight bytes as one big-endian number. Missing bytes count as zeros.
///
/// The key with the lesser head comes first. Keys with the same head have the same first eight
/// bytes, where missing ones count as zeros. [`crate::laws::key_heads`] states both.
pub fn key_head(bytes: &[u8]) -> u64
    ensures key_head { result ≡ head_of bytes.now }
{
    if let Some(first) = bytes.first_chunk::<8>() {
        return u64::from_be_bytes(*first);
    }
    short_head(bytes)
}

/// Returns the head of the bytes of a key after the first n: that of no byte if the key ends
/// before.
///
/// If fewer than eight bytes follow, it is found in the last eight of the key, if it has eight.
pub fn head_after(key: &[u8], prefix_len: usize) -> u64
    ensures key_head { result ≡ head_of (drop prefix_len key.now) }
    ensures are_bytes { IsBytes key.now }
{
    if prefix_len >= key.len() {
        return 0;
    }
    let count = key.len() - prefix_len;
    if count >= 8 || key.len() < 8 {
        return key_head(&key[prefix_len..]);
    }
    key_head(&key[key.len() - 8..]) << (8 * (8 - count))
}

// Returns the same of bytes that may be fewer than eight.
fn short_head(bytes: &[u8]) -> u64
    ensures key_head { result ≡ head_of bytes.now }
{
    let mut first = [0; 8];
    let length = bytes.len().min(first.len());
    first[..length].copy_from_slice(&bytes[..length]);
    u64::from_be_bytes(first)
}

/// Returns how many bytes both begin with.
///
/// After these the next bytes differ, or one of the keys ends. So they determine which key comes
/// first, as [`crate::laws::common_prefixes`] states.
pub fn common_prefix_len(a: &[u8], b: &[u8]) -> usize
    ensures within { (result ≤ length a.now) × (result ≤ length b.now) }
    ensures same { take result a.now ≡ take result b.now }
    ensures differ { result < length a.now → result < length b.now
        → slice_index a.now result ≢ slice_index b.now result }
{
    let least = a.len().min(b.len());
    if least < 8 {
        return common_bytes(a, b);
    }
    let from = (8 * common_words(a, b)).min(least - 8);
    from + common_in_word(&a[from..], &b[from..])
}

// Returns how many of the first eight bytes both begin with.
fn common_in_word(a: &[u8], b: &[u8]) -> usize
    requires long { (8 ≤ length a.now) × (8 ≤ length b.now) }
    ensures within { result ≤ 8 }
    ensures same { take result a.now ≡ take result b.now }
    ensures differ { result < 8 → slice_index a.now result ≢ slice_index b.now result }
{
    same_bytes(key_head(a), key_head(b))
}

/// Returns how many bytes two heads begin with in common.
pub fn same_bytes(a: u64, b: u64) -> usize
    ensures within { result ≤ 8 }
    ensures same { take result (to_be_bytes w64 a) ≡ take result (to_be_bytes w64 b) }
    ensures differ { result < 8 → slice_index (to_be_bytes w64 a) result
        ≢ slice_index (to_be_bytes w64 b) result }
{
    (a ^ b).leading_zeros() as usize / 8
}

// Returns how many words of eight bytes both begin with. The next words differ, if both have one.
fn common_words(a: &[u8], b: &[u8]) -> usize
    ensures within { (8 * result ≤ length a.now) × (8 * result ≤ length b.now) }
    ensures same { take (8 * result) a.now ≡ take (8 * result) b.now }
    ensures differ { 8 * result + 8 ≤ length a.now → 8 * result + 8 ≤ length b.now
        → take 8 (drop (8 * result) a.now) ≢ take 8 (drop (8 * result) b.now) }
{
    a.chunks_exact(8)
        .zip(b.chunks_exact(8))
        .take_while(|(x, y)| key_head(x) == key_head(y))
        .count()
}

// Returns the length of the common prefix, byte by byte.
fn common_bytes(a: &[u8], b: &[u8]) -> usize
    ensures within { (result ≤ length a.now) × (result ≤ length b.now) }
    ensures same { take result a.now ≡ take result b.now }
    ensures differ { result < length a.now → result < length b.now
        → slice_index a.now result ≢ slice_index b.now result }
{
    a.iter().zip(b).take_while(|(x, y)| x == y).count()
}
