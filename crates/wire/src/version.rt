//! The versions of the wire form.

ghost use Rattle.std.specs.Prelude.{◌≡◌};
ghost use Rattle.wire.specs.Spelling.{batch_kind};

/// A version of the wire form. It settles the kind of a batch and how a range is spelled.
#[derive(Clone, Copy, Debug, PartialEq, Eq)]
pub enum WireVersion {
    /// Kind 1. Each range is spelled by both ends.
    One,
    /// Kind 3. Each range begins with its form; a single key is spelled by that key alone.
    Two,
}

/// Returns the kind of a batch in this wire version.
pub fn kind_of(version: WireVersion) -> u8
    ensures exact { result ≡ batch_kind version }
{
    match version {
        WireVersion::One => 1,
        WireVersion::Two => 3,
    }
}
