ghost use Rattle.std.specs.Prelude.{ℕ, ◌≡◌, ◌*◌, ◌<◌, ◌≤◌, length as count};
ghost use Rattle.exchange.specs.Pairs.{pairs_of, pair_at};
ghost use Rattle.exchange.specs.Entries.{entries_of, cursors_of, IsRing};
ghost use Rattle.exchange.specs.Calls.{PutSays, TakeSays, LookSays};

use crate::answer::Put;
use crate::cursors::Cursors;
use crate::meaning::Exchange;
use crate::pair::Pair;
use crate::{MOST_MARKERS, PAIRS};
use refusal::Refusal;

// The longest ring of a pair.
const LONGEST: usize = 64;

// A ring of `length` entries for each pair, one after the other in the lent words: these are the caller's, of fixed memory, all pairs in one
// stretch. The cursors stand by pair number.
#[derive(Drop)]
pub struct Ring<'a> {
    words: &'a mut [u16],
    served: usize,
    length: usize,
    cursors: [Cursors; PAIRS],
    ghost someone: { 1 ≤ served },
    ghost sixteen: { served ≤ 16 },
    ghost holds: { 1 ≤ length },
    ghost bounded: { length ≤ 64 },
    ghost room: { pairs_of served * length ≤ count words.now },
    ghost rings: { (q : ℕ) → q < pairs_of served → IsRing (cursors_of q cursors) (entries_of length q words.now) },
}

impl<'a> Ring<'a> {
    ghost use Rattle.exchange.specs.RingMeaning.{ring_of, new_ring, ring_answer, RingMade, ring_serves, ring_waiting, ring_vacant};

    // A ring over any words that serves one marker, and so has no pair: the place that `set_up` fills.
    pub fn over(words: &'a mut [u16]) -> Ring<'a>
        ensures { ring_of result ≡ new_ring 1 1 words.entry }
    {
        Ring {
            words,
            served: 1,
            length: 1,
            cursors: [Cursors::START; PAIRS],
        }
    }

    // Makes it a ring that serves so many markers with `length` entries a pair, and in which nothing waits.
    pub fn set_up(&mut self, markers: usize, length: usize) -> Result<(), Refusal>
        ensures answer { result ≡ ring_answer markers length (count self.old.words.now) }
        ensures made { RingMade markers length self.old self.new result }
    {
        if !(1..=MOST_MARKERS).contains(&markers) || !(1..=LONGEST).contains(&length) {
            return Err(Refusal::Range);
        }
        let n = markers * (markers - 1) * length;
        if n > self.words.len() {
            return Err(Refusal::Memory);
        }
        self.words[..n].fill(0);
        self.served = markers;
        self.length = length;
        self.cursors = [Cursors::START; PAIRS];
        Ok(())
    }

    // What `look` answers; by `&self`, since behind a `&mut` a proof loses what lent words hold, also where a slice of them is taken first.
    fn has_none_waiting(&self, pair: Pair) -> Result<bool, Refusal>
        ensures { LookSays ring_serves ring_waiting ring_vacant pair.sender pair.receiver self.now self.now result }
    {
        let q = pair.number(self.served)?;
        let at = q * self.length;
        Ok(self.cursors[q].is_empty(&self.words[at..at + self.length]))
    }
}

impl<'a> Exchange for Ring<'a> {
    ghost use Rattle.exchange.specs.RingMeaning.{ring_of, RingPut, RingTake, ring_serves, ring_waiting, ring_vacant};
    ghost use Rattle.exchange.specs.RingLaws.{ring_laws};

    ghost served = { ring_serves };

    ghost waiting = { ring_waiting };

    ghost vacant = { ring_vacant };

    ghost most = { 64 };

    ghost laws = { ring_laws };

    const MOST: usize = LONGEST;

    fn capacity() -> usize
        ensures { result ≡ 64 }
    {
        Self::MOST
    }

    fn markers(&self) -> usize {
        self.served
    }

    fn put(&mut self, pair: Pair, task: u16) -> Result<Put, Refusal>
        ensures meaning { PutSays ring_serves ring_waiting ring_vacant pair.sender pair.receiver task self.old self.new result }
        ensures memory { RingPut (pair_at self.old.served pair.sender pair.receiver) task (ring_of self.old) (ring_of self.new) result }
    {
        let q = pair.number(self.served)?;
        // this test stands in `Pool` too: a function for it would be no shorter
        if task == 0 {
            return Err(Refusal::Unknown);
        }
        // no function gives this range: the proofs of put, take and look would each have to rewrite by it
        let at = q * self.length;
        Ok(self.cursors[q].put(&mut self.words[at..at + self.length], task))
    }

    fn take(&mut self, pair: Pair) -> Result<Option<u16>, Refusal>
        ensures meaning { TakeSays ring_serves ring_waiting ring_vacant pair.sender pair.receiver self.old self.new result }
        ensures memory { RingTake (pair_at self.old.served pair.sender pair.receiver) (ring_of self.old) (ring_of self.new) result }
    {
        let q = pair.number(self.served)?;
        let at = q * self.length;
        Ok(self.cursors[q].take(&mut self.words[at..at + self.length]))
    }

    fn look(&mut self, pair: Pair) -> Result<bool, Refusal>
        ensures meaning { LookSays ring_serves ring_waiting ring_vacant pair.sender pair.receiver self.old self.new result }
        ensures memory { self.new ≡ self.old }
    {
        self.has_none_waiting(pair)
    }
}
