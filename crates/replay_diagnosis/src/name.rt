//! The name of a file, as a line shows it.

ghost use Rattle.std.specs.Prelude.{◌≡◌, ◌++◌, OnOk};
ghost use Rattle.replay_diagnosis.specs.Remedy.{shown_name, shown_byte as shown_code};

use std::io;
use std::io::Write;

/// Appends the name of a file. A control character is shown as a question mark, so that the name
/// stays on one line.
pub fn put_name(out: &mut Vec<u8>, name: &[u8]) -> io::Result<()>
    ensures text { OnOk result (out.new.items ≡ out.old.items ++ shown_name name.now) }
{
    for byte in name {
        out.write_all(&[shown_byte(*byte)])?;
    }
    Ok(())
}

fn shown_byte(byte: u8) -> u8
    ensures shown { result ≡ shown_code byte }
{
    if byte < 32 || byte == 127 { b'?' } else { byte }
}
