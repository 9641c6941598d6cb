use timetable::book::Book;

// What a departure list is asked for: a quay of a book, from a minute of the day on.
#[derive(Drop)]
pub(crate) struct Asked<'a, B: Book> {
    pub(crate) book: &'a B,
    pub(crate) quay: u16,
    pub(crate) minute: u16,
}
