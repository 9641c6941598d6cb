//! The heap of departures by itself.
use departureheap::departure::Departure;
use departureheap::departure_heap::DepartureHeap;
use std::process::Abort;
use timetable::refusal::Refusal;

fn departure(minute: u32, place: u16) -> Departure {
    Departure { place, minute }
}

// The minute and the place of what is taken.
fn taken(heap: &mut DepartureHeap<'_>) -> Option<(u32, u16)> {
    let least = heap.take_least()?;
    Some((least.minute, least.place))
}

// Takes one after another.
fn check_order(rt: &impl Abort, heap: &mut DepartureHeap<'_>, due: &[Option<(u32, u16)>]) {
    for is in due {
        assert_eq!(rt; taken(heap), *is);
    }
}

#[test]
fn the_least_is_taken_first(rt: HostRuntime) {
    let mut store = [departure(7, 7); 4];
    let mut heap = DepartureHeap::new(&mut store);
    assert_eq!(rt; heap.len(), 0);
    for (minute, place) in [(600u32, 3u16), (510, 9), (600, 2), (4294967295, 65535)] {
        assert_eq!(rt; heap.add(departure(minute, place)), Ok(()));
    }
    assert_eq!(rt; heap.len(), 4);
    check_order(
        &rt,
        &mut heap,
        &[
            Some((510, 9)),
            Some((600, 2)),
            Some((600, 3)),
            Some((4294967295, 65535)),
            None,
        ],
    );
}

#[test]
fn a_full_heap_refuses_and_a_freed_place_serves_again(rt: HostRuntime) {
    let mut store = [departure(7, 7); 2];
    let mut heap = DepartureHeap::new(&mut store);
    assert_eq!(rt; heap.add(departure(20, 1)), Ok(()));
    assert_eq!(rt; heap.add(departure(10, 1)), Ok(()));
    assert_eq!(rt; heap.add(departure(5, 1)), Err(Refusal::HeapFull));
    check_order(&rt, &mut heap, &[Some((10, 1))]);
    assert_eq!(rt; heap.add(departure(30, 1)), Ok(()));
    assert_eq!(rt; heap.add(departure(5, 1)), Err(Refusal::HeapFull));
    check_order(&rt, &mut heap, &[Some((20, 1)), Some((30, 1)), None]);
}

#[test]
fn one_of_a_rank_is_replaced(rt: HostRuntime) {
    let mut store = [departure(7, 7); 3];
    let mut heap = DepartureHeap::new(&mut store);
    for minute in [10u32, 20, 30] {
        assert_eq!(rt; heap.add(departure(minute, 1)), Ok(()));
    }
    assert_eq!(rt; heap.replace(30 * 65536 + 1, departure(5, 2)), Ok(()));
    assert_eq!(rt;
        heap.replace(30 * 65536 + 1, departure(6, 2)),
        Err(Refusal::NoRank)
    );
    assert_eq!(rt; heap.len(), 3);
    check_order(
        &rt,
        &mut heap,
        &[Some((5, 2)), Some((10, 1)), Some((20, 1)), None],
    );
}
