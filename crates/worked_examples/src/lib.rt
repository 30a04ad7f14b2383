// Worked examples of the rules, as one theorem on one function.
#![tactic(auto)]

ghost use Rattle.worked_examples.specs.Examples.{Examples};

mod stacks;

// How many examples are proved.
pub fn worked_examples() -> u8
    ensures { Examples result }
{
    14
}

#[cfg(test)]
mod deque_tests;
#[cfg(test)]
mod exchange_tests;
#[cfg(test)]
mod tests;
