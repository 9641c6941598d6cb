//! The law over whole runs, used from the contracts of the board alone.
ghost use Rattle.routing.specs.Route.{lent_in, SameRoom};
ghost use Rattle.board_tests.specs.Without.{RoutedWithout};

use board::board::Board;
use queue::line::Line;
use routing::found::Found;
use routing::room::Room;
use timetable::book::Book;
use timetable::query::Query;
use timetable::refusal::Refusal;

// A route after one notice is one of the book without the run, whatever was marked between.
fn without_run<B: Book + Drop, L: Line>(
    opened: B,
    run: u16,
    room: &mut Room<'_, L>,
    query: Query,
) -> Result<Option<Found>, Refusal>
    ensures law { RoutedWithout (B.meaning opened) run query (lent_in L.keys room.old) (lent_in L.keys room.new) result }
    ensures same { SameRoom room.old room.new }
{
    let mut board = Board::new(opened);
    let _ = board.withhold(run);
    let _ = board.thin();
    board.route(room, query)
}
