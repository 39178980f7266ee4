// The byte of state of a row: the state that it says, and the byte that says a state.
ghost use Rattle.std.specs.Prelude.{◌≡◌, ◌+◌, ◌*◌, ◌-◌, ◌/◌, ◌%◌, ◌≤◌};
ghost use Rattle.memory.specs.States.{k_waits, o_waits, says_undelivered, says_withdrawn, says_faulty, state_of};
ghost use Rattle.memory.specs.Inner.Stored.{waits_code, code_of};

use model::State;

// A byte of state.
#[derive(Clone, Copy, PartialEq, Eq, Debug)]
pub struct Code(pub u8);

impl Code {
    // The last byte that says a state: that of the last fault, the tenth, with both waits.
    pub const LAST: u8 = 8 + 4 * 10 + 3;

    // Does K wait?
    // Kept: 4c: a bit of a byte, which memory that is not judged may hold, is no variant of an enum.
    pub fn k_waits(self) -> bool
        ensures { result ≡ k_waits self.0 }
    {
        self.0 % 2 == 1
    }

    // Does O wait?
    // Kept: 4c: a bit of a byte, which memory that is not judged may hold, is no variant of an enum.
    pub fn o_waits(self) -> bool
        ensures { result ≡ o_waits self.0 }
    {
        self.0 / 2 % 2 == 1
    }

    // Is it the byte of an Undelivered order?
    // Kept: 4c: asked of the byte, which memory that is not judged may hold, many at a time and before it is a state.
    pub fn says_undelivered(self) -> bool
        ensures { result ≡ says_undelivered self.0 }
    {
        (4..=5).contains(&self.0)
    }

    // Is it the byte of a Withdrawn order?
    // Kept: 4c: asked of the byte, which memory that is not judged may hold, many at a time and before it is a state.
    pub fn says_withdrawn(self) -> bool
        ensures { result ≡ says_withdrawn self.0 }
    {
        (8..=11).contains(&self.0)
    }

    // Is it the byte of a Faulty order?
    // Kept: 4c: asked of the byte, which memory that is not judged may hold, many at a time and before it is a state.
    pub fn says_faulty(self) -> bool
        ensures { result ≡ says_faulty self.0 }
    {
        (12..=Code::LAST).contains(&self.0)
    }
}

impl From<Code> for State {
    ghost from_gives = { λ code state. state ≡ state_of code.0 };

    #[tactic(auto, using(text::proofs::Branches::branches, text::proofs::Branches::and_left), unfolding(crate::specs::States::state_of))]
    fn from(code: Code) -> State {
        if code.0 == 0 {
            return State::Open;
        }
        if code.0 == 1 {
            return State::Posted;
        }
        if code.0 == 2 {
            return State::Paid;
        }
        if code.says_undelivered() {
            return State::Undelivered(code.k_waits());
        }
        if code.says_withdrawn() {
            return State::Withdrawn(code.k_waits(), code.o_waits());
        }
        if code.says_faulty() {
            return State::Faulty(u64::from(code.0 / 4 - 2), code.k_waits(), code.o_waits());
        }
        State::Faulty(0, false, false)
    }
}

impl From<State> for Code {
    ghost from_gives = { λ state code. code.0 ≡ code_of state };

    fn from(state: State) -> Code {
        // Kept: 7b: docs/LAYOUT.md has the byte of each state, and a match has them side by side.
        Code(match state {
            State::Open => 0,
            State::Posted => 1,
            State::Paid => 2,
            State::Faulty(fault, k, o) => 8 + 4 * (fault % 32) as u8 + waits(k, o),
            State::Undelivered(k) => 4 + waits(k, false),
            State::Withdrawn(k, o) => 8 + waits(k, o),
        })
    }
}

// What two waits add to the byte.
fn waits(k: bool, o: bool) -> u8
    ensures { (result ≡ waits_code k o) × (result ≤ 3) }
{
    u8::from(k) + 2 * u8::from(o)
}
