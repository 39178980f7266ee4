// The name in a head: its identifier, compared by value, and judged.
ghost use Rattle.std.specs.Prelude.{◌≡◌, ◌||◌, eqb};
ghost use Rattle.epe.specs.Ident.{same_ident, ident_in_form};
ghost use Rattle.epe.specs.Name.{name_in_form};
ghost use Rattle.model.specs.Book.{same_name};
ghost use Rattle.memory.specs.Layout.{IsHead};
ghost use Rattle.memory.specs.Heads.{name_in};

use crate::head::{DATE, Head, KIND, LENGTH, PAYMENT};
use crate::number::read;
use calendar::date::{Date, is_real};
use epe::ident::{Ident, is_identifier};
use epe::name::Name;

impl Head<'_> {
    // The shipment's identifier.
    pub fn ident(&self) -> Ident
        ensures { result ≡ (name_in self.now).ident }
    {
        let mut bytes = [0u8; LENGTH];
        bytes.copy_from_slice(&self.bytes[..LENGTH]);
        Ident {
            bytes,
            len: usize::from(self.bytes[LENGTH]),
        }
    }

    // Is the shipment of that identifier?
    // Kept: 4a: it is `==`, and a name for what a walk asks of each head.
    pub fn is_called(&self, wanted: Ident) -> bool
        ensures { result ≡ same_ident wanted (name_in self.now).ident }
    {
        wanted == self.ident()
    }

    // Its name.
    pub fn name(&self) -> Name
        ensures { result ≡ name_in self.now }
    {
        Name {
            ident: self.ident(),
            date: Date(read::<4>(self.bytes, DATE)),
            payment: self.bytes[PAYMENT],
            kind: u64::from(self.bytes[KIND]),
        }
    }

    // Is the shipment of that name?
    // Kept: 4a: it is `==`, and a name for what a transfer asks.
    #[tactic(auto, unfolding(model::specs::Book::same_name))]
    pub fn is_named(&self, name: Name) -> bool
        ensures { result ≡ same_name name (name_in self.now) }
    {
        name == self.name()
    }

    // Have two shipments the same identifier?
    pub fn is_namesake(&self, other: &Head) -> bool
        ensures { result ≡ same_ident (name_in self.now).ident (name_in other.now).ident }
    {
        are_namesakes(self.bytes, other.bytes)
    }

    // Are all parts of the name in form?
    #[tactic(auto, using(text::proofs::Branches::branches), unfolding(epe::specs::Name::name_in_form))]
    pub fn has_name_in_form(&self) -> bool
        ensures { result ≡ name_in_form (name_in self.now) }
    {
        self.has_ident_in_form()
            && (is_real(Date(read::<4>(self.bytes, DATE)))
                && (matches!(self.bytes[PAYMENT], b'A' | b'B') && self.bytes[KIND] <= 4))
    }

    // Is the identifier in form?
    // Kept: 4a: it is `==` of two slices, behind two other questions.
    #[tactic(auto, using(text::proofs::Branches::branches), unfolding(epe::specs::Ident::ident_in_form))]
    fn has_ident_in_form(&self) -> bool
        ensures { result ≡ ident_in_form (name_in self.now).ident }
    {
        let zeros = [0u8; LENGTH];
        let bytes = &self.bytes[..LENGTH];
        let len = usize::from(self.bytes[LENGTH]);
        len <= LENGTH && (is_identifier(&bytes[..len]) && bytes[len..] == zeros[len..])
    }
}

// Have two heads the same identifier? Its last byte and its length are compared as one number.
// Kept: 4a: tried as `==` of the identifiers, and slower: whether 32 shipments are sound took 1.76 µs, and takes 1.35.
fn are_namesakes(head: &[u8], other: &[u8]) -> bool
    requires { IsHead head.now × IsHead other.now }
    ensures { result ≡ same_ident (name_in head.now).ident (name_in other.now).ident }
{
    read::<8>(head, 0) == read::<8>(other, 0)
        && (read::<8>(head, 8) == read::<8>(other, 8)
            && read::<2>(head, 16) == read::<2>(other, 16))
}
