// Where a shipment stands in a book.

// The place of a head among all heads, and that of its shipment's first row among all rows.
#[derive(Clone, Copy, PartialEq, Eq, Debug)]
pub struct Place {
    pub head: usize,
    pub row: usize,
}
