// Runs a script of calls on an exchange, a line of standard input a call, and prints a line of answer each: docs/EXCHANGE.md has the lines.
#![tactic(auto)]

mod answer;
mod calls;
mod command;

use answer::{Answer, CommandError};
use calls::answer;
use command::{Command, Words};
use exchange::{Pool, Ring};
use std::alloc::Global;
use std::io::Read;

// The two exchanges of a kind.
#[derive(Drop)]
struct Two<X> {
    enough: X,
    few: X,
}

impl<X> Two<X> {
    fn over(&mut self, words: Words) -> &mut X {
        match words {
            Words::Enough => &mut self.enough,
            Words::Few => &mut self.few,
        }
    }
}

// The exchange that calls go to. An enum, since `dyn Exchange` cannot be: the trait has a constant and a function with no self.
#[derive(Clone, Copy)]
enum Used {
    Ring(Words),
    Pool(Words),
}

// The exchanges of a script, and which of them is in use.
#[derive(Drop)]
struct Exchanges<'a> {
    rings: Two<Ring<'a>>,
    pools: Two<Pool<'a>>,
    used: Used,
}

impl Exchanges<'_> {
    fn run(&mut self, memory: Global, command: Command) -> Result<Answer, CommandError> {
        match command {
            Command::Ring {
                over,
                markers,
                length,
            } => {
                self.used = Used::Ring(over);
                self.rings.over(over).set_up(markers, length)?;
                Ok(Answer::Made)
            }
            Command::Pool { over, markers } => {
                self.used = Used::Pool(over);
                self.pools.over(over).set_up(markers)?;
                Ok(Answer::Made)
            }
            Command::Call(call) => match self.used {
                Used::Ring(words) => answer(memory, self.rings.over(words), call),
                Used::Pool(words) => answer(memory, self.pools.over(words), call),
            },
        }
    }
}

// Carries out a line of the script, and prints what it is answered.
fn run_line(rt: &HostRuntime, exchanges: &mut Exchanges, line: &str) -> anyhow::Result<()> {
    match line.parse() {
        Ok(command) => match exchanges.run(rt.alloc(), command) {
            Ok(answer) => rt.println(answer)?,
            Err(error @ CommandError::Refused(_)) => rt.println(error)?,
            Err(error) => return Err(error.into()),
        },
        Err(error) => rt.println(error)?,
    }
    Ok(())
}

fn main(rt: HostRuntime) -> anyhow::Result<()> {
    let mut script = String::new(rt.alloc());
    rt.stdin().read_to_string(&mut script)?;
    let (mut wide, mut narrow) = ([9u16; 15360], [9u16; 12]);
    let (mut enough, mut scarce) = ([9u16; 1024], [9u16; 1023]);
    let mut exchanges = Exchanges {
        rings: Two {
            enough: Ring::over(&mut wide),
            few: Ring::over(&mut narrow),
        },
        pools: Two {
            enough: Pool::over(&mut enough),
            few: Pool::over(&mut scarce),
        },
        used: Used::Ring(Words::Enough),
    };
    for line in script.as_str().lines() {
        if !line.is_empty() && !line.starts_with('#') {
            run_line(&rt, &mut exchanges, line)?;
        }
    }
    Ok(())
}
