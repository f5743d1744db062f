//! The location of a range in the buffer of its batch.

ghost use Rattle.std.specs.Prelude.{◌≡◌, ◌+◌, ◌≤◌, length, slice_range};

/// The location of the keys of a range in a buffer, in bytes. The two may share bytes.
#[derive(Clone, Copy, Debug, PartialEq, Eq)]
pub struct Span {
    /// The index of the first byte of the begin.
    pub begin: u32,
    pub begin_length: u16,
    /// The index of the first byte of the end.
    pub end: u32,
    pub end_length: u16,
}

/// Returns n bytes of the buffer, from an index on.
pub fn bytes_at(buffer: &[u8], from: u32, count: u16) -> &[u8]
    requires within { from + count ≤ length buffer.now }
    ensures bytes { result.now ≡ slice_range buffer.now from (from + count) }
{
    let from = from as usize;
    &buffer[from..from + count as usize]
}
