// One deque for every kind of element, over places that its user lends. After the last place comes the first again.
#![tactic(auto)]

ghost use Rattle.std.specs.Prelude.{◌≡◌, ◌+◌, ◌-◌, ◌<◌, ◌≤◌, length};
ghost use Rattle.deque.specs.Circle.{wrapped};

use refusal::Refusal;

// What is kept of a deque between two uses: the place of its bottom element, and how many elements it holds.
#[derive(Clone, Copy, PartialEq, Eq, Debug)]
pub struct Ends {
    pub first: usize,
    pub held: usize,
}

impl Ends {
    ghost use Rattle.deque.specs.Ends.{fresh};

    // The ends of a deque that holds nothing, from the first place on.
    pub fn fresh() -> Ends
        ensures { result ≡ fresh }
    {
        Ends { first: 0, held: 0 }
    }
}

// The place that comes `by` places after `first`. No `%`, since `first + by` may pass the largest number.
fn place_after(n: usize, first: usize, by: usize) -> usize
    requires { (first < n) × (by ≤ n) }
    ensures value { result ≡ wrapped n (first + by) }
    ensures within { result < n }
{
    let left = n - first;
    if by < left { first + by } else { by - left }
}

// A deque that is in use: its ends, and the places that it is lent. The first place is one of them, or 0 where there are none.
// The places are lent for each use, and only the ends are kept, so no Vec.
#[derive(Drop)]
pub struct Deque<'a, X> {
    ends: Ends,
    places: &'a mut [X],
    ghost begins: { ends.first ≤ length places.now - 1 },
    ghost fits: { ends.held ≤ length places.now },
}

impl<'a, X: Copy> Deque<'a, X> {
    ghost use Rattle.deque.specs.Ends.{fitted, held_in};
    ghost use Rattle.deque.specs.Calls.{DequePushes, DequePopsTop, DequePopsBottom};

    // The deque with these ends in these places. Ends that no deque has in so many places are changed to fit.
    pub fn over(places: &'a mut [X], ends: Ends) -> Deque<'a, X>
        ensures ends { result.ends ≡ fitted (length places.old) ends }
        ensures places { result.places.now ≡ places.old }
        ensures lender { result.places.ghost_name ≡ places.entry.ghost_name }
    {
        let n = places.len();
        let ends = Ends {
            first: if ends.first < n { ends.first } else { 0 },
            held: ends.held.min(n),
        };
        Deque { ends, places }
    }

    // The ends to keep until the next use.
    #[tactic(auto, using(crate::proofs::Fitting::fitted_same, crate::proofs::Windows::length_window))]
    pub fn ends(&self) -> Ends
        ensures value { result ≡ self.now.ends }
        ensures fitting { fitted (length self.now.places.now) result ≡ result }
        ensures count { length (held_in result self.now.places.now) ≡ result.held }
    {
        // by a pattern: the must-fail edit needs a text that stands only here
        let Deque { ends, .. } = self;
        *ends
    }

    // Puts `x` on the top. Refused as full exactly if every place is held.
    pub fn push(&mut self, x: X) -> Result<(), Refusal>
        ensures { DequePushes self.old self.new x result }
    {
        let n = self.places.len();
        if self.ends.held >= n {
            return Err(Refusal::Full);
        }
        let above = place_after(n, self.ends.first, self.ends.held);
        self.places[above] = x;
        self.ends.held += 1;
        Ok(())
    }

    // Takes the element on the top, if there is one. Its place keeps it.
    #[tactic(auto, using(crate::proofs::Windows::window_top))]
    pub fn pop_top(&mut self) -> Option<X>
        ensures { DequePopsTop self.old self.new result }
    {
        if self.ends.held == 0 {
            return None;
        }
        self.ends.held -= 1;
        let top = place_after(self.places.len(), self.ends.first, self.ends.held);
        Some(self.places[top])
    }

    // Takes the element at the bottom, if there is one. Its place keeps it.
    pub fn pop_bottom(&mut self) -> Option<X>
        ensures { DequePopsBottom self.old self.new result }
    {
        let Ends { first, held } = self.ends;
        if held == 0 {
            return None;
        }
        self.ends = Ends {
            first: place_after(self.places.len(), first, 1),
            held: held - 1,
        };
        Some(self.places[first])
    }
}
