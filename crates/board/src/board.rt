//! The board: an opened book under the notices in effect, and the marks of the last thinning.
ghost use Rattle.std.specs.Prelude.{◌≡◌};
ghost use Rattle.thinning.specs.Dominance.{dominated_in};
ghost use Rattle.routing.specs.Route.{lent_in, SameRoom, Routed};
ghost use Rattle.timetable.specs.declared.call.Call.TheVariants.{Withhold, Release, Shut, Open, Thin, Route};
ghost use Rattle.board.specs.declared.calls.Answer.TheVariants.{Notice, Count, Told};
ghost use Rattle.board.specs.History.{event, new as begun};
ghost use Rattle.board.specs.States.{opening, standing, shown, on_withhold, on_release, on_shut, on_open, after_withhold, after_release, after_shut, after_open, AfterThin};
ghost use Rattle.board.specs.Kept.{Kept, Carries, CarriesOn};
ghost use Rattle.board.specs.Boards.{state_of, ShowsForce};

use layers::shutting::Shutting;
use layers::thinned::Thinned;
use layers::withholding::Withholding;
use queue::line::Line;
use routing::found::Found;
use routing::room::Room;
use timetable::book::Book;
use timetable::query::Query;
use timetable::refusal::Refusal;

// From the inside out: the opened book, the runs withheld, the quays shut, and the marks. Only the methods below change it.
#[derive(Drop)]
pub struct Board<B> {
    thinned: Thinned<Shutting<Withholding<B>>>,
}

// Marks hold only for the book in force in which they were made, so each accepted notice erases them. (The four notices are three lines
// each, which differ in the call below; one function over that call would be no plainer.)
impl<B: Book> Board<B> {
    // A board over the opened book, before any call.
    pub fn new(opened: B) -> Self
        ensures state { state_of B.meaning result ≡ opening (B.meaning opened) }
        ensures law { Kept (B.meaning opened) begun (state_of B.meaning result) }
    {
        let thinned = Thinned::new(Shutting::new(Withholding::new(opened)));
        Board { thinned }
    }

    // Takes the sailings of a run out of force.
    pub fn withhold(&mut self, run: u16) -> Result<(), Refusal>
        ensures answer { result ≡ on_withhold (state_of B.meaning self.old) run }
        ensures after { state_of B.meaning self.new ≡ after_withhold (state_of B.meaning self.old) run }
        ensures law { CarriesOn (state_of B.meaning self.old) (Withhold run) (Notice result) (state_of B.meaning self.new) }
    {
        self.thinned.below.below.withhold(run)?;
        self.thinned.rule.erase();
        Ok(())
    }

    // Puts them into force again.
    pub fn release(&mut self, run: u16) -> Result<(), Refusal>
        ensures answer { result ≡ on_release (state_of B.meaning self.old) run }
        ensures after { state_of B.meaning self.new ≡ after_release (state_of B.meaning self.old) run }
        ensures law { CarriesOn (state_of B.meaning self.old) (Release run) (Notice result) (state_of B.meaning self.new) }
    {
        self.thinned.below.below.release(run)?;
        self.thinned.rule.erase();
        Ok(())
    }

    // Takes the sailings that touch a quay out of force.
    pub fn shut(&mut self, quay: u16) -> Result<(), Refusal>
        ensures answer { result ≡ on_shut (state_of B.meaning self.old) quay }
        ensures after { state_of B.meaning self.new ≡ after_shut (state_of B.meaning self.old) quay }
        ensures law { CarriesOn (state_of B.meaning self.old) (Shut quay) (Notice result) (state_of B.meaning self.new) }
    {
        self.thinned.below.shut(quay)?;
        self.thinned.rule.erase();
        Ok(())
    }

    // Puts them into force again.
    pub fn open(&mut self, quay: u16) -> Result<(), Refusal>
        ensures answer { result ≡ on_open (state_of B.meaning self.old) quay }
        ensures after { state_of B.meaning self.new ≡ after_open (state_of B.meaning self.old) quay }
        ensures law { CarriesOn (state_of B.meaning self.old) (Open quay) (Notice result) (state_of B.meaning self.new) }
    {
        self.thinned.below.open(quay)?;
        self.thinned.rule.erase();
        Ok(())
    }

    // Marks the dominated sailings of the book in force, and tells how many they are.
    pub fn thin(&mut self) -> u16
        ensures count { result ≡ dominated_in (standing (state_of B.meaning self.old)) }
        ensures after { AfterThin (state_of B.meaning self.old) (state_of B.meaning self.new) }
        ensures law { CarriesOn (state_of B.meaning self.old) Thin (Count result) (state_of B.meaning self.new) }
    {
        self.thinned.thin()
    }

    // An earliest journey for the query in the book in force. Marked sailings are passed over: no arrival is lost by that.
    pub fn route<L: Line>(
        &self,
        room: &mut Room<'_, L>,
        query: Query,
    ) -> Result<Option<Found>, Refusal>
        ensures shown { Routed (shown (state_of B.meaning self.now)) query (lent_in L.keys room.old) (lent_in L.keys room.new) result }
        ensures law { Carries (state_of B.meaning self.now) (event (Route query) (Told result) (lent_in L.keys room.old) (lent_in L.keys room.new)) (state_of B.meaning self.now) }
        ensures same { SameRoom room.old room.new }
    {
        routing::route::route(&self.thinned, room, query)
    }

    // The book in force, for other questions than routes: marked sailings stand in it.
    pub fn in_force(&self) -> &Shutting<Withholding<B>>
        ensures book { result.now ≡ self.now.thinned.below }
        ensures law { ShowsForce B.meaning (state_of B.meaning self.now) result.now }
    {
        &self.thinned.below
    }
}
