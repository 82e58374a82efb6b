// Items of a line, each after a space.
use std::fmt;

#[derive(Drop)]
pub(crate) struct Row<'a, T> {
    items: &'a [T],
    from: usize,
    count: usize,
}

impl<'a, T> Row<'a, T> {
    // So many items from a place on, as far as they go.
    pub(crate) fn new(items: &'a [T], from: usize, count: usize) -> Row<'a, T> {
        Row { items, from, count }
    }
}

impl<T: fmt::Display> fmt::Display for Row<'_, T> {
    fn fmt<W: fmt::Write>(&self, f: &mut fmt::Formatter<W>) -> fmt::Result {
        for item in self.items.iter().skip(self.from).take(self.count) {
            write!(f, " {item}")?;
        }
        Ok(())
    }
}
