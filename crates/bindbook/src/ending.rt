//! The ending of a line.
ghost use Rattle.std.specs.Prelude.{◌≡◌};
ghost use Rattle.bindbook.specs.Endings.{without_last, bare};

// The bytes without the last one, if that is a carriage return.
fn without_return(bytes: &[u8]) -> &[u8]
    ensures { result.now ≡ without_last bytes.now 13 }
{
    bytes.strip_suffix(b"\r").unwrap_or(bytes)
}

// The part of a line before its ending: byte 10, and byte 13 before it.
pub(crate) fn without_ending(line: &[u8]) -> &[u8]
    ensures { result.now ≡ bare line.now }
{
    match line.strip_suffix(b"\n") {
        Some(front) => without_return(front),
        None => line,
    }
}
