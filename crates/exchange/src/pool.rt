ghost use Rattle.std.specs.Prelude.{ℕ, ◌≡◌, ◌≢◌, ◌<◌, ◌≤◌, length, slice_index, IfSome, IfNone};
ghost use Rattle.exchange.specs.Pairs.{pairs_of, pair_at};
ghost use Rattle.exchange.specs.Calls.{PutSays, TakeSays, LookSays};

use crate::MOST_MARKERS;
use crate::answer::Put;
use crate::meaning::Exchange;
use crate::pair::Pair;
use refusal::Refusal;

// How many places a pool has.
const PLACES: usize = 1024;

// One pool of 1,024 places for the tasks of all pairs, in order of arrival. The task at a place stands in the lent words, the number of
// its pair in `pairs`; the first `held` places hold tasks.
// Two arrays and a length beside them, since the words are the caller's, of fixed length, and nothing else stands in them.
#[derive(Drop)]
pub struct Pool<'a> {
    words: &'a mut [u16],
    served: usize,
    held: usize,
    pairs: [u8; PLACES],
    ghost someone: { 1 ≤ served },
    ghost sixteen: { served ≤ 16 },
    ghost bounded: { held ≤ 1024 },
    ghost lent: { held ≤ length words.now },
    ghost room: { 2 ≤ served → 1024 ≤ length words.now },
    ghost known: { (k : ℕ) → k < held → slice_index pairs k < pairs_of served },
}

impl<'a> Pool<'a> {
    ghost use Rattle.exchange.specs.PoolMeaning.{pool_of, pool_over, added_to, removed_from, pool_answer, PoolMade};

    // A pool over any words that serves one marker, and so has no pair: the place that `set_up` fills.
    pub fn over(words: &'a mut [u16]) -> Pool<'a>
        ensures { pool_of result ≡ pool_over words.entry }
    {
        Pool {
            words,
            served: 1,
            held: 0,
            pairs: [0; PLACES],
        }
    }

    // Makes it a pool that serves so many markers, and in which nothing waits.
    pub fn set_up(&mut self, markers: usize) -> Result<(), Refusal>
        ensures answer { result ≡ pool_answer markers (length self.old.words.now) }
        ensures made { PoolMade markers self.old self.new result }
    {
        if !(1..=MOST_MARKERS).contains(&markers) {
            return Err(Refusal::Range);
        }
        if self.words.len() < PLACES {
            return Err(Refusal::Memory);
        }
        self.held = 0;
        self.served = markers;
        Ok(())
    }

    // Puts a task of the pair with number `q` at the first place that holds none.
    #[tactic(auto, using(crate::proofs::PoolSteps::two_serve))]
    fn add(&mut self, q: usize, task: u16)
        requires pair { (q < pairs_of self.old.served) × (q < 240) }
        requires room { self.old.held < 1024 }
        ensures { pool_of self.new ≡ added_to q task (pool_of self.old) }
    {
        self.words[self.held] = task;
        self.pairs[self.held] = u8::try_from(q).unwrap();
        self.held += 1;
    }

    // The place of the newest task of the pair with number `q`.
    fn newest(&self, q: usize) -> Option<usize>
        ensures found { IfSome result (λ k. slice_index self.now.pairs k ≡ q) }
        ensures last { IfSome result (λ k. (j : ℕ) → k < j → j < self.now.held → slice_index self.now.pairs j ≢ q) }
        ensures none { IfNone result ((j : ℕ) → j < self.now.held → slice_index self.now.pairs j ≢ q) }
        ensures held { IfSome result (λ k. k < self.now.held) }
    {
        self.pairs[..self.held]
            .iter()
            .rposition(|p| usize::from(*p) == q)
    }

    // Gives up place `k` and gives its task: the places after it move down by one.
    fn remove(&mut self, k: usize) -> u16
        requires { k < self.old.held }
        ensures task { result ≡ slice_index self.old.words.now k }
        ensures after { pool_of self.new ≡ removed_from k (pool_of self.old) }
    {
        let task = self.words[k];
        self.words.copy_within(k + 1..self.held, k);
        self.pairs.copy_within(k + 1..self.held, k);
        self.held -= 1;
        task
    }
}

impl<'a> Exchange for Pool<'a> {
    ghost use Rattle.exchange.specs.PoolMeaning.{pool_of, PoolPut, PoolTake, pool_serves, pool_waiting, pool_vacant};
    ghost use Rattle.exchange.specs.PoolLaws.{pool_laws};

    ghost served = { pool_serves };

    ghost waiting = { pool_waiting };

    ghost vacant = { pool_vacant };

    ghost most = { 1024 };

    ghost laws = { pool_laws };

    const MOST: usize = PLACES;

    fn capacity() -> usize
        ensures { result ≡ 1024 }
    {
        Self::MOST
    }

    fn markers(&self) -> usize {
        self.served
    }

    fn put(&mut self, pair: Pair, task: u16) -> Result<Put, Refusal>
        ensures meaning { PutSays pool_serves pool_waiting pool_vacant pair.sender pair.receiver task self.old self.new result }
        ensures memory { PoolPut (pair_at self.old.served pair.sender pair.receiver) task (pool_of self.old) (pool_of self.new) result }
    {
        let q = pair.number(self.served)?;
        if task == 0 {
            return Err(Refusal::Unknown);
        }
        if self.held >= PLACES {
            return Ok(Put::NoVacancy);
        }
        self.add(q, task);
        Ok(Put::Joined)
    }

    fn take(&mut self, pair: Pair) -> Result<Option<u16>, Refusal>
        ensures meaning { TakeSays pool_serves pool_waiting pool_vacant pair.sender pair.receiver self.old self.new result }
        ensures memory { PoolTake (pair_at self.old.served pair.sender pair.receiver) (pool_of self.old) (pool_of self.new) result }
    {
        let q = pair.number(self.served)?;
        // no `map`: a proof loses the pool behind a closure that changes it
        match self.newest(q) {
            Some(k) => Ok(Some(self.remove(k))),
            None => Ok(None),
        }
    }

    fn look(&mut self, pair: Pair) -> Result<bool, Refusal>
        ensures meaning { LookSays pool_serves pool_waiting pool_vacant pair.sender pair.receiver self.old self.new result }
        ensures memory { self.new ≡ self.old }
    {
        let q = pair.number(self.served)?;
        Ok(self.newest(q).is_none())
    }
}
