// A sound book, read in place: document 01's book, its shipments walked from the first on.
ghost use Rattle.std.specs.Prelude.{◌≡◌, true, ◌≤◌, length, List};
ghost use Rattle.std.specs.Iterator.{YieldsFirst, item_count};
ghost use Rattle.model.specs.Shipment.{most_shipments, Shipment};
ghost use Rattle.memory.specs.Read.{shipments_from, book_in, sound_in};
ghost use Rattle.sound.specs.Inner.Standing.{Stands, book_of};

use crate::is_sound;
use memory::Memory;
use memory::place::Place;
use memory::shipment::LentShipment;
use std::marker::Model;

// A sound book, to be read in place.
#[derive(Drop)]
pub struct Book<'a> {
    memory: &'a [u8],
}

impl<'a> Model for Book<'a> {
    ghost Value = { List Shipment };

    ghost view = { λ book. book_in book.memory.now };

    ghost invariant = { λ book. sound_in book.memory.now ≡ true };
}

impl<'a> Book<'a> {
    // The book that memory holds, if it is sound.
    #[tactic(auto, unfolding(crate::specs::Inner::Standing::book_of))]
    pub fn of(memory: &'a [u8]) -> Option<Book<'a>>
        ensures { result ≡ book_of memory.now }
    {
        if !is_sound(memory) {
            return None;
        }
        Some(Book { memory })
    }

    // How many shipments it has.
    #[tactic(auto, using(crate::proofs::Standing::book_enough, crate::proofs::Standing::book_many, crate::proofs::Standing::book_few))]
    pub fn len(&self) -> usize
        ensures { (result ≡ length self.now) × (result ≤ most_shipments) }
    {
        Memory::lent(self.memory).shipments()
    }
}

impl<'r, 'a> IntoIterator for &'r Book<'a> {
    type Item = LentShipment<'a>;

    type IntoIter = Shipments<'a>;

    ghost into_iter_gives = { λ book left. (left ≡ book.now) × (length book.now ≤ most_shipments) };

    #[tactic(auto, using(crate::proofs::Standing::book_few, crate::proofs::Standing::stands_first, crate::proofs::Standing::left_first))]
    fn into_iter(self) -> Shipments<'a> {
        Shipments {
            memory: self.memory,
            head: 0,
            row: 0,
            count: self.len(),
        }
    }
}

// Shipments of a sound book that are left of it, to be read in place.
#[derive(Drop)]
pub struct Shipments<'a> {
    memory: &'a [u8],
    head: usize,
    row: usize,
    count: usize,
}

impl<'a> Model for Shipments<'a> {
    ghost Value = { List Shipment };

    ghost view = { λ left. shipments_from left.memory.now left.head left.row left.count };

    ghost invariant = { λ left. Stands left.memory.now left.head left.row left.count };
}

impl<'a> Iterator for Shipments<'a> {
    type Item = LentShipment<'a>;

    ghost next_gives = { YieldsFirst (λ left. left) };

    ghost remaining = { item_count (λ left. left) };

    #[tactic(auto, using(crate::proofs::Standing::first_sits, crate::proofs::Standing::rest_stands, crate::proofs::Standing::shipments_on, crate::proofs::Standing::shipments_done))]
    fn next(&mut self) -> Option<LentShipment<'a>> {
        if self.count == 0 {
            return None;
        }
        let place = Place {
            head: self.head,
            row: self.row,
        };
        let shipment = LentShipment::at(self.memory, place);
        self.head += 1;
        self.row += shipment.rows().len();
        self.count -= 1;
        Some(shipment)
    }
}
