//! Fields that have to stand in a line.
ghost use Rattle.std.specs.Prelude.{◌≡◌};
ghost use Rattle.booktext.specs.Fields.{number_here, time_here};

use crate::entry::LineFault;
use numerals::field::Field;
use numerals::number::number_field;
use numerals::time::time_field;

pub(crate) fn number(line: &[u8], at: usize) -> Result<Field<u16>, LineFault>
    ensures { result ≡ number_here line.now at }
{
    number_field(line, at).ok_or(LineFault::NoNumber(at))
}

// (One line as above, with another reader and another fault: one function for both is no plainer.)
pub(crate) fn time(line: &[u8], at: usize) -> Result<Field<u16>, LineFault>
    ensures { result ≡ time_here line.now at }
{
    time_field(line, at).ok_or(LineFault::NoTime(at))
}
