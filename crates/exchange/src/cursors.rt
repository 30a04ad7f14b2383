ghost use Rattle.std.specs.Prelude.{◌≡◌, ◌<◌, [], IsTrue, ◌↔◌};
ghost use Rattle.exchange.specs.Entries.{following};

use crate::answer::Put;

// The two ends of the ring of one pair: a task joins at the tail and leaves at the head.
// The entries come beside the cursors in each call: a struct of both would hold two loans, of which a proof knows nothing once it is gone.
// 0 marks a vacant entry: the ring's memory is the caller's words, one a task, by the rules of the exchange.
#[derive(Clone, Copy, PartialEq, Eq, Debug)]
pub(crate) struct Cursors {
    head: usize,
    tail: usize,
}

// The entry after this one, round past the last of so many. No `%`: each put and take waits for it, and a division takes several times as long.
fn entry_after(at: usize, length: usize) -> usize
    requires { at < length }
    ensures value { result ≡ following length at }
    ensures within { result < length }
{
    let next = at + 1;
    if next < length { next } else { 0 }
}

impl Cursors {
    // Where a ring with vacant entries begins.
    pub(crate) const START: Cursors = Cursors { head: 0, tail: 0 };

    ghost use Rattle.exchange.specs.Entries.{IsRing, PairPut, PairTake, tasks};

    // Puts a task into the entry at the tail, if that is vacant.
    #[tactic(auto, using(crate::proofs::Turns::is_full, crate::proofs::Turns::put_fills, crate::proofs::Turns::put_ring))]
    pub(crate) fn put(&mut self, entries: &mut [u16], task: u16) -> Put
        requires ring { IsRing self.old entries.old }
        requires some { 0 < task }
        ensures ring { IsRing self.new entries.new }
        ensures put { PairPut self.old self.new entries.old entries.new task result }
    {
        if entries[self.tail] != 0 {
            return Put::NoVacancy;
        }
        let next = entry_after(self.tail, entries.len());
        entries[self.tail] = task;
        self.tail = next;
        Put::Joined
    }

    // Takes the task of the entry at the head, if that is filled.
    #[tactic(auto, using(crate::proofs::Turns::nothing, crate::proofs::Turns::take_vacates, crate::proofs::Turns::take_ring))]
    pub(crate) fn take(&mut self, entries: &mut [u16]) -> Option<u16>
        requires { IsRing self.old entries.old }
        ensures ring { IsRing self.new entries.new }
        ensures taken { PairTake self.old self.new entries.old entries.new result }
    {
        let task = entries[self.head];
        if task == 0 {
            return None;
        }
        let next = entry_after(self.head, entries.len());
        entries[self.head] = 0;
        self.head = next;
        Some(task)
    }

    // Whether the entry at the head is vacant.
    #[tactic(auto, using(crate::proofs::Turns::nothing, crate::proofs::Turns::something))]
    pub(crate) fn is_empty(self, entries: &[u16]) -> bool
        requires { IsRing self entries.now }
        ensures { IsTrue result ↔ (tasks entries.now self.head ≡ []) }
    {
        entries[self.head] == 0
    }
}
