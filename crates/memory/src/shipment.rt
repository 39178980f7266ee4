// A shipment of a sound book, read in place: what it has, by the book's own definition of it.
ghost use Rattle.std.specs.Prelude.{◌≡◌, true};
ghost use Rattle.money.specs.Money.{amount, fee, sum_of, WithinSum};
ghost use Rattle.money.specs.declared.Money.TheVariants.{K, O};
ghost use Rattle.model.specs.Shipment.{Shipment, accepted, returned, is_waiting, is_paired};
ghost use Rattle.model.specs.Sound.{shipment_sound};
ghost use Rattle.memory.specs.Heads.{shipment_in};
ghost use Rattle.memory.specs.Read.{shipment_at, Sits};

use crate::Memory;
use crate::head::Head;
use crate::place::Place;
use crate::rows::Rows;
use epe::ident::Ident;
use fee::Terms;
use money::{Amount, Fee, Money, Sum};
use std::marker::Model;

// A shipment of a sound book, to be read in place.
#[derive(Drop)]
pub struct LentShipment<'a> {
    pub(crate) head: Head<'a>,
    pub(crate) rows: Rows<'a>,
}

impl<'a> Model for LentShipment<'a> {
    ghost Value = { Shipment };

    ghost view = { λ lent. shipment_in lent.head lent.rows };

    ghost invariant = { λ lent. shipment_sound (shipment_in lent.head lent.rows) ≡ true };
}

impl<'a> LentShipment<'a> {
    // The shipment at a place.
    pub fn at(memory: &'a [u8], place: Place) -> LentShipment<'a>
        requires { Sits memory.now place.head place.row }
        ensures { result ≡ shipment_at memory.now place.head place.row }
    {
        let memory = Memory::lent(memory);
        let head = memory.head(place.head);
        let rows = memory.rows(place.row, head.orders() as usize);
        LentShipment { head, rows }
    }

    // Its identifier.
    #[tactic(auto, unfolding(crate::specs::Heads::shipment_in))]
    pub fn ident(&self) -> Ident
        ensures { (result ≡ self.now.agreed.name.ident) × (shipment_sound self.now ≡ true) }
    {
        self.head.ident()
    }

    // Its terms.
    #[tactic(auto, unfolding(crate::specs::Heads::shipment_in))]
    pub fn terms(&self) -> Terms
        ensures { result ≡ self.now.agreed.terms }
    {
        self.head.terms()
    }

    // Is it Waiting?
    #[tactic(auto, unfolding(crate::specs::Heads::shipment_in))]
    pub fn is_waiting(&self) -> bool
        ensures { result ≡ is_waiting self.now.stage }
    {
        self.head.is_waiting()
    }

    // Is it Paired?
    #[tactic(auto, unfolding(crate::specs::Heads::shipment_in))]
    pub fn is_paired(&self) -> bool
        ensures { result ≡ is_paired self.now.stage }
    {
        self.head.is_paired()
    }

    // Did a go-ahead come?
    #[tactic(auto, unfolding(crate::specs::Heads::shipment_in))]
    pub fn has_go_ahead(&self) -> bool
        ensures { result ≡ self.now.go_ahead }
    {
        self.head.has_go_ahead()
    }

    // Its orders' rows.
    #[tactic(auto, unfolding(crate::specs::Heads::shipment_in))]
    pub fn rows(&self) -> &Rows<'a>
        ensures { result.now ≡ self.now.rows }
    {
        &self.rows
    }

    // The transfers accepted of a money.
    #[tactic(auto, using(crate::proofs::HeadFields::accepted_there, crate::proofs::HeadFields::accepted_low))]
    pub fn accepted(&self, money: Money) -> Sum
        ensures { (result ≡ sum_of money (accepted money self.now)) × WithinSum (accepted money self.now) × (shipment_sound self.now ≡ true) }
    {
        self.head.accepted(money)
    }

    // Those of K.
    pub fn amounts_accepted(&self) -> Amount
        ensures { result ≡ amount (accepted K self.now) }
    {
        self.head.amounts_accepted()
    }

    // Those of O.
    // Kept: 2a: amounts and fees are two types, which document 01 names, and each a line.
    pub fn fees_accepted(&self) -> Fee
        ensures { result ≡ fee (accepted O self.now) }
    {
        self.head.fees_accepted()
    }

    // The surplus returned of a money.
    #[tactic(auto, using(crate::proofs::HeadFields::returned_there, crate::proofs::HeadFields::returned_low))]
    pub fn returned(&self, money: Money) -> Sum
        ensures { (result ≡ sum_of money (returned money self.now)) × WithinSum (returned money self.now) }
    {
        self.head.returned(money)
    }
}
