// A number that stands in a line, and the byte after it.
#[derive(Clone, Copy, PartialEq, Debug)]
pub struct Field<T> {
    pub value: T,
    pub next: usize,
}
