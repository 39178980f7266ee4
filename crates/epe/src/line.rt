// A line of an order file, with its fields.
use text::fields::Fields;

// A line and where its bars stand. ".. R, the number of fields in a record line, 19 to 32.", and a header has 12.
pub type Line<'a> = Fields<'a, b'|', 32>;
