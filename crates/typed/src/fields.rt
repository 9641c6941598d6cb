//! The numbers after the letter of a line.
ghost use Rattle.std.specs.Prelude.{◌≡◌};
ghost use Rattle.std.specs.Option.{ok_or};
ghost use Rattle.timetable.specs.declared.refusal.Refusal.TheVariants.{NoNumber};
ghost use Rattle.numerals.specs.Numbers.{numeral_at};
ghost use Rattle.typed.specs.Fields.{one_of, query_of};

use numerals::field::Field;
use numerals::number::number_field;
use numerals::unsigned::Unsigned;
use timetable::query::Query;
use timetable::refusal::Refusal;

// The number that has to stand from byte `at` of a line on, after a space.
pub fn number<T: Unsigned>(line: &[u8], at: usize) -> Result<Field<T>, Refusal>
    ensures { result ≡ ok_or (numeral_at T.of T.MOST_DIGITS T.most line.now at) NoNumber }
{
    number_field(line, at).ok_or(Refusal::NoNumber)
}

pub(crate) fn one_number(line: &[u8]) -> Result<u16, Refusal>
    ensures { result ≡ one_of line.now }
{
    let only = number::<u16>(line, 1)?;
    if only.next != line.len() {
        return Err(Refusal::Surplus);
    }
    Ok(only.value)
}

pub(crate) fn query(line: &[u8]) -> Result<Query, Refusal>
    ensures { result ≡ query_of line.now }
{
    let from = number::<u16>(line, 1)?;
    let to = number::<u16>(line, from.next)?;
    let minute = number::<u16>(line, to.next)?;
    let class = number::<u16>(line, minute.next)?;
    if class.next != line.len() {
        return Err(Refusal::Surplus);
    }
    Ok(Query {
        from: from.value,
        to: to.value,
        minute: minute.value,
        class: class.value,
    })
}
