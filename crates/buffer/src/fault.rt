// Why the system did not read or write.
ghost use Rattle.std.specs.Prelude.{◌≡◌, ◌↔◌, IsTrue, Some, pos};
ghost use Rattle.std.specs.IoError.{raw_os_error};

use arrayvec::ArrayString;
use std::fmt::Write;
use std::io;
use std::io::Stderr;

// A name that is not UTF-8 opens no file.
pub fn ill_formed() -> io::Error
    ensures { raw_os_error result ≡ Some (pos 84) }
{
    io::Error::from_raw_os_error(84)
}

// Nobody reads any more what is written.
pub fn has_no_reader(error: &io::Error) -> bool
    ensures { IsTrue result ↔ (raw_os_error error.now ≡ Some (pos 32)) }
{
    error.raw_os_error() == Some(32)
}

// Writes a line to standard error: what failed, as the caller names it, and why. That nobody reads any more is told nobody.
pub fn tell(err: Stderr, what: &[u8], error: io::Error) {
    if has_no_reader(&error) {
        return;
    }
    let why = io::Error::from_raw_os_error(error.raw_os_error().unwrap_or(0));
    let mut text = ArrayString::<320>::new();
    let _ = write!(text, "{why}");
    // Without the ` (os error N)` that the library puts after it.
    let why = text
        .as_str()
        .rsplit_once(" (")
        .map_or("", |(front, _)| front);
    let _ = Print::write_all(&err, what);
    let _ = Print::write_all(&err, b": ");
    let _ = Print::write_all(&err, why.as_bytes());
    let _ = Print::write_all(&err, b"\n");
}
