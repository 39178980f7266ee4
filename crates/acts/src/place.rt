// Where a call finds its shipment.
ghost use Rattle.std.specs.Prelude.{◌≡◌, true, ◌≤◌};
ghost use Rattle.model.specs.Shipment.{most_shipments};
ghost use Rattle.memory.specs.Read.{sound_in};
ghost use Rattle.acts.specs.Inner.Place.{called_in, named_in, place_from, place_in};

use crate::refusal::Refusal;
use epe::ident::Ident;
use epe::name::Name;
use memory::Memory;
use memory::place::Place;
use sound::is_sound;

// The place of the shipment of an identifier.
#[tactic(auto, using(text::proofs::Branches::branches, sound::proofs::ReadLaws::sound_parts), unfolding(crate::specs::Inner::Place::place_in))]
pub fn place_called(memory: &[u8], ident: Ident) -> Result<Place, Refusal>
    ensures { result ≡ place_in (called_in ident) memory.now }
{
    if !is_sound(memory) {
        return Err(Refusal::Unsound);
    }
    let memory = Memory::lent(memory);
    find_called(&memory, ident, memory.shipments()).ok_or(Refusal::Unknown)
}

// The place of the shipment of a name, in a sound book: identifiers are all different there, so that it can be no other than that of its identifier.
#[tactic(auto, using(crate::proofs::PlaceOfName::of_name))]
pub fn place_named(memory: &[u8], name: Name) -> Result<Place, Refusal>
    requires { sound_in memory.now ≡ true }
    ensures { result ≡ place_in (named_in name) memory.now }
{
    let memory = Memory::lent(memory);
    let place = find_called(&memory, name.ident, memory.shipments()).ok_or(Refusal::Unknown)?;
    if !memory.head(place.head).is_named(name) {
        return Err(Refusal::Unknown);
    }
    Ok(place)
}

// The place of the shipment of an identifier, among n.
pub fn find_called(memory: &Memory, ident: Ident, n: usize) -> Option<Place>
    requires { n ≤ most_shipments }
    ensures { result ≡ place_from (called_in ident) memory.now 0 0 n }
{
    let mut row = 0;
    // Kept: 3c, 6c: a shipment's rows begin where those before it end, and `find` carries no place along.
    for i in 0..n {
        let head = memory.head(i);
        if head.is_called(ident) {
            return Some(Place { head: i, row });
        }
        row += head.orders() as usize;
    }
    None
}
