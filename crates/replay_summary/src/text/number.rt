//! A number of a summary, with its name.

ghost use Rattle.std.specs.Prelude.{◌≡◌, ◌++◌, OnOk};
ghost use Rattle.std.specs.Fmt.{decimal};

use std::io;
use std::io::Write;

/// Appends the name, which is ASCII, and the number in decimal.
pub fn put_number(out: &mut Vec<u8>, name: &[u8], number: usize) -> io::Result<()>
    ensures text { OnOk result
        (out.new.items ≡ out.old.items ++ name.now ++ decimal number) }
{
    out.write_all(name)?;
    write!(out, "{number}")
}
