use exchange::Pair;
use std::error::Error;
use std::fmt;
use std::num::ParseIntError;
use std::str::{FromStr, Split};

// Which of the two exchanges of a kind: the one that lies over enough words, or the one that lies over few.
#[derive(Clone, Copy, PartialEq, Eq, Debug)]
pub enum Words {
    Enough,
    Few,
}

// A line of a script: the exchange to make and go on with, or a call on the one that is in use.
#[derive(Clone, Copy, PartialEq, Eq, Debug)]
pub enum Command {
    Ring {
        over: Words,
        markers: usize,
        length: usize,
    },
    Pool {
        over: Words,
        markers: usize,
    },
    Call(Call),
}

#[derive(Clone, Copy, PartialEq, Eq, Debug)]
pub enum Call {
    Put {
        pair: Pair,
        task: u16,
    },
    Take {
        pair: Pair,
    },
    Look {
        pair: Pair,
    },
    Puts {
        pair: Pair,
        first: usize,
        times: usize,
    },
    Takes {
        pair: Pair,
        times: usize,
    },
    Markers,
    Most,
}

// A line that is no command.
#[derive(Clone, Copy, PartialEq, Eq, Debug)]
pub struct NoCommand;

impl fmt::Display for NoCommand {
    fn fmt<W: fmt::Write>(&self, f: &mut fmt::Formatter<W>) -> fmt::Result {
        f.write_str("what?")
    }
}

impl Error for NoCommand {}

// The number that the next word is, if it is digits and fits.
fn number<N: FromStr<Err = ParseIntError>>(words: &mut Split<'_, char>) -> Option<N> {
    let digits = words.next()?;
    if digits.starts_with('+') {
        return None;
    }
    digits.parse().ok()
}

// The pair whose two markers come next.
fn pair(words: &mut Split<'_, char>) -> Option<Pair> {
    Some(Pair {
        sender: number(words)?,
        receiver: number(words)?,
    })
}

fn parse_call(word: &str, words: &mut Split<'_, char>) -> Option<Call> {
    Some(match word {
        "put" => Call::Put {
            pair: pair(words)?,
            task: number(words)?,
        },
        "take" => Call::Take { pair: pair(words)? },
        "look" => Call::Look { pair: pair(words)? },
        "puts" => Call::Puts {
            pair: pair(words)?,
            first: number(words)?,
            times: number(words)?,
        },
        "takes" => Call::Takes {
            pair: pair(words)?,
            times: number(words)?,
        },
        "markers" => Call::Markers,
        "most" => Call::Most,
        _ => return None,
    })
}

fn parse_ring(over: Words, words: &mut Split<'_, char>) -> Option<Command> {
    Some(Command::Ring {
        over,
        markers: number(words)?,
        length: number(words)?,
    })
}

fn parse_pool(over: Words, words: &mut Split<'_, char>) -> Option<Command> {
    Some(Command::Pool {
        over,
        markers: number(words)?,
    })
}

fn parse_command(word: &str, words: &mut Split<'_, char>) -> Option<Command> {
    match word {
        "ring" => parse_ring(Words::Enough, words),
        "short" => parse_ring(Words::Few, words),
        "pool" => parse_pool(Words::Enough, words),
        "poor" => parse_pool(Words::Few, words),
        _ => parse_call(word, words).map(Command::Call),
    }
}

impl FromStr for Command {
    type Err = NoCommand;

    fn from_str(line: &str) -> Result<Command, NoCommand> {
        let mut words = line.split(' ');
        let word = words.next().ok_or(NoCommand)?;
        let command = parse_command(word, &mut words).ok_or(NoCommand)?;
        match words.next() {
            None => Ok(command),
            Some(_) => Err(NoCommand),
        }
    }
}
