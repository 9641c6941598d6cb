//! One line of a timetable.
ghost use Rattle.std.specs.Prelude.{◌≡◌};
ghost use Rattle.booktext.specs.Lines.{worded, line_of, Says};

use crate::entry::*;
use crate::quays::quay_line;
use crate::sailings::sailing_line;

fn worded_line(line: &[u8]) -> Result<Entry, LineFault>
    ensures { result ≡ worded line.now }
{
    if line.starts_with(b"quay") {
        return Ok(Entry::Quay(quay_line(line)?));
    }
    if line.starts_with(b"sailing") {
        return Ok(Entry::Sailing(sailing_line(line)?));
    }
    Err(LineFault::NoWord)
}

// What a line says, without its ending. An empty line and one that begins with # say nothing.
pub fn read_line(line: &[u8]) -> Result<Option<Entry>, LineFault>
    ensures value { result ≡ line_of line.now }
    ensures exact { Says line.now result }
{
    if line.is_empty() || line[0] == b'#' {
        return Ok(None);
    }
    worded_line(line).map(Some)
}
