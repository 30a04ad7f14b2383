ghost use Rattle.std.specs.Prelude.{◌≤◌};
ghost use Rattle.exchange.specs.Pairs.{Numbered};

use refusal::Refusal;

// The queue that one marker fills and another empties. It names one only where the two differ and are both below the number of markers
// served (spec Pairs.Pair); calls refuse any other as unknown.
#[derive(Clone, Copy, PartialEq, Eq, Debug)]
pub struct Pair {
    pub sender: usize,
    pub receiver: usize,
}

impl Pair {
    // Its number among the pairs of so many markers.
    pub(crate) fn number(self, markers: usize) -> Result<usize, Refusal>
        requires { markers ≤ 16 }
        ensures { Numbered markers self.sender self.receiver result }
    {
        let Pair { sender, receiver } = self;
        if sender >= markers || receiver >= markers || sender == receiver {
            return Err(Refusal::Unknown);
        }
        let column = if receiver < sender {
            receiver
        } else {
            receiver - 1
        };
        Ok(sender * (markers - 1) + column)
    }
}
