ghost use Rattle.std.specs.Prelude.{◌≡◌, ℕ};
ghost use Rattle.exchange.specs.Calls.{Queues, PutSays, TakeSays, LookSays, Laws};

use crate::answer::Put;
use crate::pair::Pair;
use refusal::Refusal;

// An exchange between markers: for each pair <i,j> of two markers, both below the number that it serves, a queue that the sender i fills
// and the receiver j empties. A call with no such pair is refused as unknown, and so is task 0 put.
pub trait Exchange {
    // how many markers it serves, 1 to 16
    ghost served: { Self → ℕ };

    // the tasks that wait on <i,j>, in order of arrival
    ghost waiting: { Self → Queues };

    // the vacancies of <i,j>
    ghost vacant: { Self → ℕ → ℕ → ℕ };

    // the most that one pair holds
    ghost most: { ℕ };

    // The most that one pair holds, 1 to 4,096.
    const MOST: usize;

    // The kind's constant. No default: a ghost member that gives the constant is refused at an impl with a lifetime.
    fn capacity() -> usize
        ensures { result ≡ most };

    // How many markers it serves. A trait has no fields, so ring and pool each answer their own.
    fn markers(&self) -> usize
        ensures { result ≡ served self.now };

    // Puts a task at the end of the pair's queue, if there is a vacancy.
    fn put(&mut self, pair: Pair, task: u16) -> Result<Put, Refusal>
        ensures meaning { PutSays served waiting vacant pair.sender pair.receiver task self.old self.new result };

    // Takes one of the tasks that wait on the pair, if there is one.
    fn take(&mut self, pair: Pair) -> Result<Option<u16>, Refusal>
        ensures meaning { TakeSays served waiting vacant pair.sender pair.receiver self.old self.new result };

    // Whether nothing waits on the pair.
    fn look(&mut self, pair: Pair) -> Result<bool, Refusal>
        ensures meaning { LookSays served waiting vacant pair.sender pair.receiver self.old self.new result };

    // what every kind keeps
    ghost laws: { Laws served waiting vacant most };
}
