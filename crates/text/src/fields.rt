// Fields of a text at a separator: one pass notes where the separators stand, and each field is then found without another.
ghost use Rattle.std.specs.Prelude.{◌≡◌, [], ◌-◌, ◌<◌, ◌≤◌, eqb, length, get_or, take};
ghost use Rattle.text.specs.Fields.{fields, cuts, cut_table, cut_count, field_by};

use crate::bytes::slice;

// A text with the places of its separators, as many as there is room for, and zeros behind them.
// Kept: 6a: tried, and slower: by pushes into a vector of fixed room, with a branch at each byte, a line of 114 bytes took 245 nanoseconds in plain Rust. In
// a table of which the place behind the last is written, and counted where it is a separator, it took 129.
#[derive(Drop)]
pub struct Fields<'a, const SEPARATOR: u8, const ROOM: usize> {
    text: &'a [u8],
    cuts: [usize; ROOM],
    count: usize,
    ghost cut: { (cuts ≡ cut_table ROOM SEPARATOR text.now) × (count ≡ cut_count ROOM SEPARATOR text.now) },
}

impl<'a, const SEPARATOR: u8, const ROOM: usize> Fields<'a, SEPARATOR, ROOM> {
    // The fields of a text.
    pub fn of(text: &'a [u8]) -> Fields<'a, SEPARATOR, ROOM>
        ensures { result.text.now ≡ text.now }
    {
        let mut cuts = [0usize; ROOM];
        let count = cut(text, SEPARATOR, &mut cuts);
        Fields { text, cuts, count }
    }

    // The text.
    pub fn text(&self) -> &'a [u8]
        ensures { result.now ≡ self.now.text.now }
    {
        self.text
    }

    // How many separators are noted.
    #[tactic(auto, unfolding(crate::specs::Fields::cut_count))]
    pub fn cuts(&self) -> usize
        ensures value { result ≡ cut_count ROOM SEPARATOR self.now.text.now }
        ensures at_most { result ≤ ROOM }
    {
        self.count
    }

    // Has the text just so many fields?
    #[tactic(auto, using(crate::proofs::FieldsByTable::fields_by_cut))]
    pub fn has(&self, n: usize) -> bool
        requires { n ≤ ROOM }
        ensures { result ≡ eqb (length (fields SEPARATOR self.now.text.now)) n }
    {
        self.cuts() + 1 == n
    }

    // Field n, counted from 1.
    #[tactic(auto, using(crate::proofs::FieldsByTable::field_by_cut))]
    pub fn nth(&self, n: usize) -> &'a [u8]
        requires { (1 ≤ n) × (n ≤ ROOM) }
        ensures { result.now ≡ get_or (fields SEPARATOR self.now.text.now) (n - 1) [] }
    {
        self.field(n - 1)
    }

    // Field k, counted from 0.
    #[tactic(auto, using(crate::proofs::Branches::branches), unfolding(crate::specs::Fields::field_by))]
    fn field(&self, k: usize) -> &'a [u8]
        ensures { result.now ≡ field_by (cut_table ROOM SEPARATOR self.now.text.now) (cut_count ROOM SEPARATOR self.now.text.now) k self.now.text.now }
    {
        let n = self.text.len();
        if self.count < k {
            return &self.text[n..];
        }
        let end = if k < self.count { self.cut_at(k) } else { n };
        let start = if k == 0 { 0 } else { self.cut_at(k - 1) + 1 };
        slice(self.text, start, end)
    }

    // The place of separator k.
    #[tactic(auto, using(crate::proofs::Cuts::cut_within), unfolding(crate::specs::Fields::cut_count))]
    fn cut_at(&self, k: usize) -> usize
        requires { k < cut_count ROOM SEPARATOR self.now.text.now }
        ensures value { result ≡ get_or (cut_table ROOM SEPARATOR self.now.text.now) k 0 }
        ensures within { result < length self.now.text.now }
    {
        self.cuts[k]
    }
}

// Fills a table with the places of a text's separators, as many as it has room for, zeros behind them, and answers how many it holds.
#[tactic(auto, unfolding(crate::specs::Fields::cut_count))]
pub fn cut(s: &[u8], separator: u8, table: &mut [usize]) -> usize
    ensures value { result ≡ cut_count (length table.old) separator s.now }
    ensures table_after { table.new ≡ cut_table (length table.old) separator s.now }
{
    let count = note_cuts(s, separator, table);
    let (_, behind) = table.split_at_mut(count);
    behind.fill(0);
    count
}

// Field k of a text, counted from 0, by the table of its cuts and their number, as `cut` leaves them.
// Kept: 6a: it is for a table that a caller cut, of any room and at any separator; a `Fields` has its own, whose places need no test.
#[tactic(auto, using(crate::proofs::Branches::branches), unfolding(crate::specs::Fields::field_by))]
pub fn field<'a, 'b>(s: &'a [u8], table: &'b [usize], count: usize, k: usize) -> &'a [u8]
    ensures { result.now ≡ field_by table.now count k s.now }
{
    if count < k {
        return &s[s.len()..];
    }
    let end = if k < count {
        table.get(k).copied().unwrap_or(0)
    } else {
        s.len()
    };
    let start = if k == 0 {
        0
    } else {
        table.get(k - 1).copied().unwrap_or(0).saturating_add(1)
    };
    slice(s, start, end)
}

// Notes the places of the separators, as many as the table has room for, and answers how many; the place behind the last is overwritten.
fn note_cuts(s: &[u8], separator: u8, table: &mut [usize]) -> usize
    ensures value { result ≡ cut_count (length table.old) separator s.now }
    ensures table_after { take result table.new ≡ take (length table.old) (cuts separator s.now) }
{
    let mut count = 0;
    // Kept: 6c: a full table ends it, however long the text is. The table walked beside the separators alone, by `zip` of a `filter`, has a branch at
    // each byte, and took 231 nanoseconds for a line of 114 bytes in plain Rust, this 123.
    for (i, b) in s.iter().enumerate() {
        if count == table.len() {
            break;
        }
        table[count] = i;
        count += usize::from(*b == separator);
    }
    count
}
