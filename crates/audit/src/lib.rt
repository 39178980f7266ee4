// The audit of a book: demand 3 over any list of calls in lent memory, and a journal of calls replayed.
#![tactic(auto)]

mod journal;
mod play;
pub mod refusal;

ghost use Rattle.std.specs.Prelude.{◌≡◌};
ghost use Rattle.audit.specs.Replay.{empty_in, Replayable, Replayed, Replays};

use crate::journal::{Entry, does_journal_fit};
use crate::play::play;
use crate::refusal::NotReplayed;
use book::reply::Reply;
use memory::Memory;
use memory::number::read;
use sound::is_sound;
use text::bytes::rest;

// Makes every call of a journal in memory that holds an empty book, tells every answer in a table, and answers the number of calls.
#[tactic(auto, using(crate::proofs::ReplayEnds::ends))]
pub fn replay(memory: &mut [u8], journal: &[u8], answers: &mut [Reply]) -> Result<u64, NotReplayed>
    ensures { Replays memory.old journal.now answers.old result memory.new answers.new }
{
    if !does_journal_fit(journal) {
        return Err(NotReplayed::NotEncoded);
    }
    let n = read::<8>(journal, 0);
    if (answers.len() as u64) < n {
        return Err(NotReplayed::TooFewAnswers);
    }
    if !is_empty(memory) {
        return Err(NotReplayed::NotEmpty);
    }
    replay_all(memory, journal, answers, n);
    Ok(n)
}

// Does the memory hold a book without shipments?
#[tactic(auto, using(text::proofs::Branches::branches, sound::proofs::ReadLaws::sound_parts), unfolding(crate::specs::Replay::empty_in))]
fn is_empty(memory: &[u8]) -> bool
    ensures { result ≡ empty_in memory.now }
{
    is_sound(memory) && Memory::lent(memory).shipments() == 0
}

// Makes the calls of a journal that fits, in memory that holds an empty book.
#[tactic(auto, using(crate::proofs::CallByCall::replaying))]
fn replay_all(memory: &mut [u8], journal: &[u8], answers: &mut [Reply], n: u64)
    requires { Replayable memory.old journal.now answers.old n }
    ensures { Replayed memory.old journal.now answers.old memory.new answers.new }
{
    let mut at = 8;
    for answer in answers[..n as usize].iter_mut() {
        let entry = Entry::at_start(rest(journal, at));
        *answer = play(memory, &entry);
        at += entry.length();
    }
}
