// The C ABI of libbuntingraft_replay.a: the export of the replay, and nothing else. include/buntingraft.h says what it is for.
#![tactic(auto)]

ghost use Rattle.std.specs.Prelude.{◌≡◌};
ghost use Rattle.buntingraft_replay.specs.TellsReplay.{reply_to_replay, TellsReplay};

use audit::refusal::NotReplayed;
use book::reply::{Reply, done};

// How a replay ended, in three numbers: with so many calls, or before the first of them.
// Kept: 4c: the C interface has three numbers.
fn tell_replaying(replaying: Result<u64, NotReplayed>) -> Reply
    ensures { result ≡ reply_to_replay replaying }
{
    // Kept: 7a: a Result has two sides, and a replay that was not made has a status of its own.
    match replaying {
        Ok(calls) => done(calls, 0),
        Err(refusal) => Reply {
            status: 3,
            first: u64::from(refusal),
            second: 0,
        },
    }
}

// Makes every call of a journal, and tells every answer in a lent table.
#[unsafe(no_mangle)]
pub extern "C" fn buntingraft_replay(
    book: &mut [u8],
    journal: &[u8],
    answers: &mut [Reply],
) -> Reply
    ensures { TellsReplay book.old journal.now answers.old result book.new answers.new }
{
    tell_replaying(audit::replay(book, journal, answers))
}
