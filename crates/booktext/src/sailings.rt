//! Lines that tell a sailing.
ghost use Rattle.std.specs.Prelude.{◌≡◌};
ghost use Rattle.booktext.specs.Sailings.{sailing_of};

use crate::entry::LineFault;
use crate::fields::*;
use timetable::sailing::Sailing;

pub(crate) fn sailing_line(line: &[u8]) -> Result<Sailing, LineFault>
    ensures { result ≡ sailing_of line.now }
{
    let run = number(line, 7)?;
    let leg = number(line, run.next)?;
    let from = number(line, leg.next)?;
    let to = number(line, from.next)?;
    let dep = time(line, to.next)?;
    let arr = time(line, dep.next)?;
    if arr.next != line.len() {
        return Err(LineFault::Surplus(arr.next));
    }
    Ok(Sailing {
        run: run.value,
        leg: leg.value,
        from: from.value,
        to: to.value,
        dep: dep.value,
        arr: arr.value,
    })
}
