// A stack in a part of a stretch. The part is lent on to the deque, and the caller knows every place of the stretch afterwards.
ghost use Rattle.std.specs.Prelude.{◌≤◌, length};
ghost use Rattle.worked_examples.specs.Stacks.{PushesInPart};

use deque::{Deque, Ends};
use refusal::Refusal;

// Pushes onto the deque that lies in the places from `from` on, up to but without `to`.
pub(crate) fn push_on(
    stretch: &mut [u16],
    from: usize,
    to: usize,
    ends: &mut Ends,
    x: u16,
) -> Result<(), Refusal>
    requires { (from ≤ to) × (to ≤ length stretch.old) }
    ensures { PushesInPart from to ends.old ends.new stretch.old stretch.new x result }
{
    let (before, _) = stretch.split_at_mut(to);
    let (_, part) = before.split_at_mut(from);
    let mut stack = Deque::over(part, *ends);
    let pushed = stack.push(x);
    *ends = stack.ends();
    pushed
}
