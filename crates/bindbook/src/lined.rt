// What a line told, with the line's number.
#[derive(Clone, Copy)]
pub(crate) struct Lined<T> {
    pub(crate) line: u64,
    pub(crate) told: T,
}
