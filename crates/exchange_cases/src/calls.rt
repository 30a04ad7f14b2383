use crate::answer::{Answer, CommandError};
use crate::command::Call;
use exchange::{Exchange, Pair, Put};
use refusal::Refusal;
use std::alloc::{AllocError, Global};

// Many puts, of tasks that count up modulo 65,536.
fn puts<X: Exchange>(x: &mut X, pair: Pair, first: usize, times: usize) -> Answer {
    let (mut joined, mut none, mut refused) = (0u64, 0u64, 0u64);
    for i in 0..times {
        let task = u16::try_from(first.wrapping_add(i) % 65536).unwrap();
        match x.put(pair, task) {
            Ok(Put::Joined) => joined = joined.saturating_add(1),
            Ok(Put::NoVacancy) => none = none.saturating_add(1),
            Err(_) => refused = refused.saturating_add(1),
        }
    }
    Answer::Puts {
        joined,
        none,
        refused,
    }
}

// Many takes.
fn takes<X: Exchange>(
    memory: Global,
    x: &mut X,
    pair: Pair,
    times: usize,
) -> Result<Answer, AllocError> {
    let mut tasks = Vec::new(memory);
    let (mut nothing, mut refused) = (0u64, 0u64);
    for _ in 0..times {
        match x.take(pair) {
            Ok(Some(task)) => tasks.push(task)?,
            Ok(None) => nothing = nothing.saturating_add(1),
            Err(_) => refused = refused.saturating_add(1),
        }
    }
    Ok(Answer::Takes {
        tasks,
        nothing,
        refused,
    })
}

// Makes the call on any exchange.
pub fn answer<X: Exchange>(memory: Global, x: &mut X, call: Call) -> Result<Answer, CommandError> {
    Ok(match call {
        Call::Put { pair, task } => Answer::Put(x.put(pair, task)?),
        Call::Take { pair } => Answer::Taken(x.take(pair)?),
        Call::Look { pair } => Answer::Empty(x.look(pair)?),
        Call::Puts { pair, first, times } => puts(x, pair, first, times),
        Call::Takes { pair, times } => takes(memory, x, pair, times)?,
        Call::Markers => Answer::Number(x.markers()),
        Call::Most => Answer::Number(X::capacity()),
    })
}
