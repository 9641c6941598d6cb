//! Tests of the layers and of thinning.
#![tactic(auto)]

ghost use Rattle.std.specs.Prelude.{◌≡◌, [], ◌∷◌};
ghost use Rattle.tables.specs.Kept.{kept};

use layers::withholding::Withholding;
use timetable::book::Book;

mod rows;

// Runs stay in the order in which they were accepted, and a released one leaves no gap.
fn keeps_order<B: Book>(below: B) -> Withholding<B>
    ensures { kept result.rule.runs ≡ 7 ∷ 6 ∷ 9 ∷ [] }
{
    let mut book = Withholding::new(below);
    let _ = book.withhold(7);
    let _ = book.withhold(8);
    let _ = book.withhold(6);
    let _ = book.withhold(7);
    let _ = book.release(8);
    let _ = book.withhold(9);
    book
}

#[cfg(test)]
mod tests {
    use crate::rows::Rows;
    use cases::book::{worked_changes, worked_sailings};
    use layers::shutting::Shutting;
    use layers::thinned::Thinned;
    use layers::withholding::Withholding;
    use tables::marks::Marks;
    use timetable::book::Book;
    use timetable::refusal::Refusal;
    use timetable::sailing::Sailing;

    // The worked book: four quays, six sailings.
    fn worked() -> ([u16; 4], [Option<Sailing>; 6]) {
        (worked_changes(30), worked_sailings().map(Some))
    }

    // A bit for each of the first six places that has a sailing, the first place highest.
    fn shown<B: Book>(book: &B) -> u32 {
        (0..6).fold(0, |bits, p| {
            bits % 64 * 2 + u32::from(book.sailing_at(p).is_some())
        })
    }

    #[test]
    fn thin_marks_place_4_alone(rt: HostRuntime) {
        let (changes, places) = worked();
        let mut book = Thinned::new(Rows::open(&changes, &places));
        let before = shown(&book);
        let count = book.thin();
        let after = shown(&book);
        let again = book.thin();
        book.rule.erase();
        assert_eq!(rt;
            [before, after, shown(&book)],
            [0b111111, 0b111101, 0b111111]
        );
        assert_eq!(rt; [count, again, book.places()], [1, 1, 6]);
    }

    // Place 4 loses to place 3 of run 8 alone. Without run 7 it still does, and nothing continues a sailing or is continued.
    #[test]
    fn thin_is_of_the_book_in_force(rt: HostRuntime) {
        let (changes, places) = worked();
        let mut book = Thinned::new(Withholding::new(Rows::open(&changes, &places)));
        let _ = book.below.withhold(8);
        let without_8 = book.thin();
        let _ = book.below.release(8);
        let _ = book.below.withhold(7);
        let without_7 = book.thin();
        assert_eq!(rt; [without_8, without_7], [0, 1]);
        assert_eq!(rt; shown(&book), 0b010101);
    }

    #[test]
    fn withheld_runs_are_blank(rt: HostRuntime) {
        let (changes, places) = worked();
        let mut book = Withholding::new(Rows::open(&changes, &places));
        assert_eq!(rt; book.withhold(7), Ok(()));
        assert_eq!(rt; shown(&book), 0b010111);
        assert_eq!(rt; [7, 8].map(|run| book.is_withheld(run)), [true, false]);
        assert_eq!(rt; book.withhold(7), Err(Refusal::RunWithheld));
        assert_eq!(rt; book.release(8), Err(Refusal::RunNotWithheld));
        assert_eq!(rt; book.release(7), Ok(()));
        assert_eq!(rt; book.release(7), Err(Refusal::RunNotWithheld));
        assert_eq!(rt; shown(&book), 0b111111);
    }

    #[test]
    fn shut_quays_blank_at_both_ends(rt: HostRuntime) {
        let (changes, places) = worked();
        let mut book = Shutting::new(Rows::open(&changes, &places));
        assert_eq!(rt; book.shut(2), Ok(()));
        assert_eq!(rt; shown(&book), 0b110000);
        assert_eq!(rt; [2, 1].map(|quay| book.is_shut(quay)), [true, false]);
        assert_eq!(rt; book.shut(2), Err(Refusal::QuayShut));
        assert_eq!(rt; book.shut(4), Err(Refusal::NoQuay));
        assert_eq!(rt; book.open(4), Err(Refusal::NoQuay));
        assert_eq!(rt; book.open(1), Err(Refusal::QuayNotShut));
        assert_eq!(rt; book.open(2), Ok(()));
        assert_eq!(rt; book.open(2), Err(Refusal::QuayNotShut));
        assert_eq!(rt; book.shut(0), Ok(()));
        assert_eq!(rt; shown(&book), 0b001111);
    }

    #[test]
    fn at_most_64_runs(rt: HostRuntime) {
        let (changes, places) = worked();
        let mut book = Withholding::new(Rows::open(&changes, &places));
        assert!(rt; (100..164).all(|run| book.withhold(run).is_ok()));
        assert_eq!(rt; book.withhold(164), Err(Refusal::RunsFull));
        assert_eq!(rt; book.withhold(100), Err(Refusal::RunWithheld));
        assert_eq!(rt; book.release(164), Err(Refusal::RunNotWithheld));
        assert_eq!(rt; book.release(120), Ok(()));
        assert_eq!(rt; book.withhold(164), Ok(()));
        assert_eq!(rt; book.withhold(120), Err(Refusal::RunsFull));
    }

    #[test]
    fn at_most_32_quays(rt: HostRuntime) {
        let changes = [10; 40];
        let (_, places) = worked();
        let mut book = Shutting::new(Rows::open(&changes, &places));
        assert!(rt; (0..32).all(|quay| book.shut(quay).is_ok()));
        assert_eq!(rt; book.shut(32), Err(Refusal::QuaysFull));
        assert_eq!(rt; book.shut(31), Err(Refusal::QuayShut));
        assert_eq!(rt; book.shut(40), Err(Refusal::NoQuay));
        assert_eq!(rt; book.open(0), Ok(()));
        assert_eq!(rt; book.shut(32), Ok(()));
        assert_eq!(rt; book.shut(0), Err(Refusal::QuaysFull));
    }

    // Sailings of one length, one for each minute of the day and then again: the second of each minute is dominated.
    #[test]
    fn thins_the_largest_book(rt: HostRuntime) {
        let mut places = [None; 3072];
        for (i, place) in places.iter_mut().enumerate() {
            let dep = (i % 1440) as u16;
            *place = Some(Sailing {
                run: 1,
                leg: 0,
                from: 0,
                to: 1,
                dep,
                arr: (dep + 30) % 1440,
            });
        }
        let mut marks = Marks::new();
        let count = thinning::thin::thin(&Rows::open(&[5, 5], &places), &mut marks);
        assert_eq!(rt; count, 1632);
        assert_eq!(rt;
            [1439, 1440, 3072].map(|place| marks.holds(place)),
            [false, true, false]
        );
    }
}
