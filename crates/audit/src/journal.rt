// A journal of calls, read in place.
ghost use Rattle.std.specs.Prelude.{◌≡◌, true, ◌+◌, ◌≤◌, ◌<◌, length};
ghost use Rattle.epe.specs.Profile.{as_fees, fees_fit};
ghost use Rattle.audit.specs.Inner.Places.{IsEnd};
ghost use Rattle.audit.specs.Journal.{texts_start, entry_length, entry_fits, entries_fit, journal_fits, numbers_taken, texts_taken};

use book::numbers::are_known;
use calendar::date::Date;
use epe::profile::{Profile, fees_of};
use fee::Rate;
use memory::number::read;
use text::bytes::{first, rest};

// Bytes at whose start an entry has its call, its numbers and the lengths of its texts, all there.
#[derive(Clone, Copy, Drop)]
pub struct Head<'a> {
    bytes: &'a [u8],
    ghost there: { texts_start bytes.now ≤ length bytes.now },
}

impl<'a> Head<'a> {
    ghost use Rattle.audit.specs.Journal.{call_byte, numbers_of, texts_of, entry_number, lengths_start, text_length, text_start, fees_in, rates_in, profile_in, entry_length, is_call, has_no_more, call_known};
    ghost use Rattle.audit.specs.Inner.Entries.{IsHead};
    ghost use Rattle.audit.specs.Inner.Places.{place_within};

    // The head of an entry at the start of bytes, if it is there.
    fn of(bytes: &'a [u8]) -> Option<Head<'a>>
        ensures { IsHead bytes.now result }
    {
        if bytes.len() < 3 {
            return None;
        }
        let numbers = usize::from(bytes[1]);
        let texts = usize::from(bytes[2]);
        if bytes.len() < 3 + 8 * numbers + 8 * texts {
            return None;
        }
        Some(Head { bytes })
    }

    // The byte that says which call it is.
    // Kept: 1d: the calls are numbers in a journal, each named once, where it is made (play.rt): an enum would need a match from the numbers to it, and then the same match over it.
    pub fn call(&self) -> u8
        ensures { result ≡ call_byte self.now.bytes.now }
    {
        self.bytes[0]
    }

    // The number at a place, 0 where the entry has none.
    // Kept: 1f: by a journal's form a number that an entry does not have is 0.
    #[tactic(auto, using(text::proofs::Branches::branches), unfolding(crate::specs::Journal::entry_number))]
    pub fn number(&self, k: usize) -> u64
        ensures { result ≡ entry_number self.now.bytes.now k }
    {
        if k < self.numbers() {
            return read::<8>(self.bytes, 3 + 8 * k);
        }
        0
    }

    // The numbers that stand for the five flat parts of the profile.
    // Kept: 6d: they may be too large for fees, which is asked of them next.
    pub fn fees(&self) -> [u64; 5]
        ensures { result ≡ fees_in self.now.bytes.now }
    {
        std::array::from_fn(|i| self.number(1 + i))
    }

    // The profile of an entry whose flat parts are fees.
    pub fn profile(&self) -> Profile
        requires { fees_fit (as_fees (fees_in self.now.bytes.now)) ≡ true }
        ensures { result ≡ profile_in self.now.bytes.now }
    {
        Profile {
            today: Date(self.number(0)),
            flat: fees_of(self.fees()),
            fields: self.number(6),
            rates: self.rates(),
        }
    }

    // How long the entry is, if the bytes go so far.
    #[tactic(auto, unfolding(crate::specs::Journal::entry_length))]
    fn length(&self) -> Option<usize>
        ensures { result ≡ place_within (length self.now.bytes.now) (entry_length self.now.bytes.now) }
    {
        self.text_start(self.texts())
    }

    // Where the text at a place starts, if the bytes go so far.
    #[tactic(auto, using(crate::proofs::JournalLaws::text_after_text), unfolding(crate::specs::Journal::text_start))]
    fn text_start(&self, j: usize) -> Option<usize>
        ensures { result ≡ place_within (length self.now.bytes.now) (text_start self.now.bytes.now j) }
    {
        let mut at = self.lengths_start() + 8 * self.texts();
        for k in 0..j {
            at = self.text_end(k, at)?;
        }
        Some(at)
    }

    // Where the text ends that starts there, if the bytes go so far. A length may be any number, so that it is held against what is left.
    #[tactic(auto, using(crate::proofs::JournalLaws::places))]
    fn text_end(&self, j: usize, start: usize) -> Option<usize>
        requires { start ≤ length self.now.bytes.now }
        ensures { result ≡ place_within (length self.now.bytes.now) (start + text_length self.now.bytes.now j) }
    {
        let long = self.text_length(j);
        if ((self.bytes.len() - start) as u64) < long {
            return None;
        }
        Some(start + long as usize)
    }

    // How long the text at a place is, 0 where the entry has none.
    // Kept: 1f: by a journal's form a text that an entry does not have is empty.
    #[tactic(auto, using(text::proofs::Branches::branches), unfolding(crate::specs::Journal::text_length))]
    fn text_length(&self, j: usize) -> u64
        ensures { result ≡ text_length self.now.bytes.now j }
    {
        if j < self.texts() {
            return read::<8>(self.bytes, self.lengths_start() + 8 * j);
        }
        0
    }

    // Where the lengths of the texts start.
    fn lengths_start(&self) -> usize
        ensures { (result ≡ lengths_start self.now.bytes.now) × (result ≤ 2043) }
    {
        3 + 8 * self.numbers()
    }

    // The five rates of the profile, whatever their numbers.
    fn rates(&self) -> [Rate; 5]
        ensures { result ≡ rates_in self.now.bytes.now }
    {
        std::array::from_fn(|i| Rate(self.number(7 + i)))
    }

    // How many numbers the entry has.
    fn numbers(&self) -> usize
        ensures { (result ≡ numbers_of self.now.bytes.now) × (result < 256) }
    {
        usize::from(self.bytes[1])
    }

    // How many texts it has.
    fn texts(&self) -> usize
        ensures { (result ≡ texts_of self.now.bytes.now) × (result < 256) }
    {
        usize::from(self.bytes[2])
    }

    // Is the call one that there is, and has it no more than it takes?
    #[tactic(auto, using(text::proofs::Branches::branches), unfolding(crate::specs::Journal::call_known))]
    fn is_call_known(&self) -> bool
        ensures { result ≡ call_known self.now.bytes.now }
    {
        self.has_no_more() && self.is_call()
    }

    // Has the entry no more numbers and texts than its call takes?
    #[tactic(auto, using(text::proofs::Branches::branches), unfolding(crate::specs::Journal::has_no_more))]
    fn has_no_more(&self) -> bool
        ensures { result ≡ has_no_more self.now.bytes.now }
    {
        let call = self.call();
        self.numbers() <= numbers_taken(call) && self.texts() <= texts_taken(call)
    }

    // Is the call one that there is?
    #[tactic(auto, using(text::proofs::Branches::branches), unfolding(crate::specs::Journal::is_call))]
    fn is_call(&self) -> bool
        ensures { result ≡ is_call self.now.bytes.now }
    {
        if self.call() == 9 {
            return are_known(self.number(0), self.number(1));
        }
        self.call() <= 8
    }
}

// An entry that is whole: its texts are there too, and its call is one that there is.
#[derive(Clone, Copy, Drop)]
pub struct Entry<'a> {
    pub head: Head<'a>,
    length: usize,
    ghost whole: { entry_fits head.bytes.now ≡ true },
    ghost ends: { length ≡ entry_length head.bytes.now },
}

impl<'a> Entry<'a> {
    ghost use Rattle.audit.specs.Journal.{entry_length, entry_text};
    ghost use Rattle.audit.specs.Inner.Entries.{IsEntry};

    // The entry at the start of bytes, if it is whole.
    #[tactic(auto, using(crate::proofs::JournalLaws::if_whole))]
    pub fn of(bytes: &'a [u8]) -> Option<Entry<'a>>
        ensures { IsEntry bytes.now result }
    {
        let head = Head::of(bytes)?;
        let length = head.length()?;
        if !head.is_call_known() {
            return None;
        }
        Some(Entry { head, length })
    }

    // The entry at the start of bytes, which is known to be whole.
    #[tactic(auto, using(crate::proofs::JournalLaws::fields_there, crate::proofs::JournalLaws::length_there, crate::proofs::JournalLaws::said_near))]
    pub fn at_start(bytes: &'a [u8]) -> Entry<'a>
        requires { entry_fits bytes.now ≡ true }
        ensures { result.head.bytes.now ≡ bytes.now }
    {
        let head = Head { bytes };
        let length = head.length().unwrap();
        Entry { head, length }
    }

    // How long it is.
    #[tactic(auto, using(crate::proofs::JournalLaws::all_there))]
    pub fn length(&self) -> usize
        ensures value { result ≡ entry_length self.now.head.bytes.now }
        ensures within { result ≤ length self.now.head.bytes.now }
    {
        self.length
    }

    // The text at a place, empty where it has none.
    // Kept: 1f: by a journal's form a text that an entry does not have is empty.
    #[tactic(auto, using(crate::proofs::JournalLaws::text_there, crate::proofs::JournalLaws::text_is))]
    pub fn text(&self, j: usize) -> &'a [u8]
        ensures { result.now ≡ entry_text self.now.head.bytes.now j }
    {
        let at = self.head.text_start(j).unwrap();
        first(rest(self.head.bytes, at), self.head.text_length(j) as usize)
    }
}

// Is the journal as many whole entries as it says, and nothing else?
#[tactic(auto, using(text::proofs::Branches::branches), unfolding(crate::specs::Journal::journal_fits))]
pub fn does_journal_fit(journal: &[u8]) -> bool
    ensures { result ≡ journal_fits journal.now }
{
    8 <= journal.len() && do_entries_fit(rest(journal, 8), read::<8>(journal, 0))
}

// Are the bytes n whole entries, and nothing else?
fn do_entries_fit(bytes: &[u8], n: u64) -> bool
    ensures { result ≡ entries_fit n bytes.now }
{
    entries_end(bytes, n) == Some(bytes.len())
}

// Where n whole entries end, if they are there.
#[tactic(auto, using(crate::proofs::JournalLaws::entry_after_entry))]
fn entries_end(bytes: &[u8], n: u64) -> Option<usize>
    ensures { IsEnd bytes.now n result }
{
    let mut at = 0;
    for i in 0..n {
        at += Entry::of(rest(bytes, at))?.length();
    }
    Some(at)
}

// How many numbers a call takes.
// Kept: 1d, 4c: the calls are numbers in a journal, each named once, where it is made (play.rt): an enum would need a match from the numbers to it, and then the same match over it.
#[tactic(auto, using(text::proofs::Branches::branches), unfolding(crate::specs::Journal::numbers_taken))]
fn numbers_taken(call: u8) -> usize
    ensures { result ≡ numbers_taken call }
{
    match call {
        0 => 12,
        1 => 1,
        2..=4 => 0,
        5..=8 => 1,
        _ => 2,
    }
}

// How many texts a call takes.
// Kept: 1d, 7c: the calls are numbers in a journal, each named once, where it is made (play.rt): an enum would need a match from the numbers to it, and then the same match over it.
#[tactic(auto, using(text::proofs::Branches::branches), unfolding(crate::specs::Journal::texts_taken))]
fn texts_taken(call: u8) -> usize
    ensures { result ≡ texts_taken call }
{
    if call == 0 { 2 } else { 1 }
}
