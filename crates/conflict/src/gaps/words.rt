//! Runs of bits in words. A run takes a mask at each end, and full words between them.
ghost use Rattle.std.specs.Prelude.{◌≡◌, ◌↔◌, ◌⊎◌, ℕ, ◌*◌, ◌/◌, ◌<◌, ◌≤◌, IsTrue, length};
ghost use Rattle.std.specs.Int.{bit_at};
ghost use Rattle.conflict.specs.Gaps.{HasBit, IsInRun, IsInWord};

// The bits of a word from `low` on.
fn ones_from(low: usize) -> u64
    requires low { low < 64 }
    ensures bits { (bit : ℕ) → bit < 64 → (bit_at result bit ≡ 1) ↔ (low ≤ bit) }
{
    u64::MAX << low
}

// The bits of a word from `low` up to `high`.
fn ones_between(low: usize, high: usize) -> u64
    requires low { low < 64 }
    requires high { high < 64 }
    ensures bits { (bit : ℕ) → bit < 64 → (bit_at result bit ≡ 1) ↔ IsInRun low high bit }
{
    ones_from(low) & !ones_from(high)
}

// Sets the bits of the mask in one word.
fn set_in_word(words: &mut [u64], word: usize, mask: u64)
    requires within { word < length words.old }
    ensures set { (bit : ℕ) → HasBit words.new bit
        ↔ (HasBit words.old bit ⊎ IsInWord word mask bit) }
{
    words[word] |= mask;
}

// Sets the bits of the words from `first` up to `last`.
fn set_words(words: &mut [u64], first: usize, last: usize)
    requires ordered { first ≤ last }
    requires within { last ≤ length words.old }
    ensures set { (bit : ℕ) → HasBit words.new bit
        ↔ (HasBit words.old bit ⊎ IsInRun first last (bit / 64)) }
{
    words[first..last].fill(u64::MAX);
}

/// Sets the bits of the run `from..to`.
pub fn set_run(words: &mut [u64], from: usize, to: usize)
    requires ordered { from ≤ to }
    requires within { to < 64 * length words.old }
    ensures set { (bit : ℕ) → HasBit words.new bit ↔ (HasBit words.old bit ⊎ IsInRun from to bit) }
{
    let (first, last) = (from / 64, to / 64);
    if first == last {
        set_in_word(words, first, ones_between(from % 64, to % 64));
    } else {
        set_in_word(words, first, ones_from(from % 64));
        set_words(words, first + 1, last);
        set_in_word(words, last, ones_between(0, to % 64));
    }
}

// Returns `true` if one word has a bit of the mask.
fn any_in_word(words: &[u64], word: usize, mask: u64) -> bool
    requires within { word < length words.now }
    ensures found { IsTrue result ↔ ((bit : ℕ) × IsInWord word mask bit × HasBit words.now bit) }
{
    words[word] & mask != 0
}

// Returns `true` if a word from `first` up to `last` has a bit.
fn any_in_words(words: &[u64], first: usize, last: usize) -> bool
    requires ordered { first ≤ last }
    requires within { last ≤ length words.now }
    ensures found { IsTrue result ↔ ((bit : ℕ) × IsInRun first last (bit / 64)
        × HasBit words.now bit) }
{
    words[first..last].iter().any(|word| *word != 0)
}

/// Returns `true` if a bit of the run `from..to` is set.
pub fn any_in_run(words: &[u64], from: usize, to: usize) -> bool
    requires ordered { from ≤ to }
    requires within { to < 64 * length words.now }
    ensures found { IsTrue result ↔ ((bit : ℕ) × IsInRun from to bit × HasBit words.now bit) }
{
    let (first, last) = (from / 64, to / 64);
    if first == last {
        return any_in_word(words, first, ones_between(from % 64, to % 64));
    }
    any_in_word(words, first, ones_from(from % 64))
        || any_in_words(words, first + 1, last)
        || any_in_word(words, last, ones_between(0, to % 64))
}
