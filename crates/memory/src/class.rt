// What soundness asks of a row's state.
ghost use Rattle.std.specs.Prelude.{◌≡◌};
ghost use Rattle.memory.specs.States.{state_of};
ghost use Rattle.memory.specs.Inner.Classes.{class_of};

use crate::row::LentRow;
use crate::state::Code;

impl LentRow<'_> {
    // What soundness asks of the row's state, as bits to join.
    // Kept: 1d: the bits of many rows are joined by one `|`, and three bools would be joined by three.
    pub fn class(&self) -> u8
        ensures { result ≡ class_of self.now.state }
    {
        self.code().class()
    }
}

impl Code {
    // What it asks of the state that the byte says. Nothing is looked up and no way is chosen by the byte, so that a loop takes many of them at a time.
    // Kept: 1d: the bits of many rows are joined by one `|`, and three bools would be joined by three.
    fn class(self) -> u8
        ensures { result ≡ class_of (state_of self.0) }
    {
        let code = self.0;
        let none = (Code::LAST < code) | ((code == 3) | ((code == 6) | (code == 7)));
        let faulty = none | (12 <= code);
        let early = (code == 0) | ((12..=Code::LAST).contains(&code) & (code % 4 == 3));
        faulty as u8 + (2 * !early as u8 + 4 * none as u8)
    }
}
