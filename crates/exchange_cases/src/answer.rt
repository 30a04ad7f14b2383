use exchange::Put;
use refusal::Refusal;
use std::alloc::AllocError;
use std::error::Error;
use std::fmt;

// What a command is answered, and so a line of output.
#[derive(Drop)]
pub enum Answer {
    Made,
    Put(Put),
    Taken(Option<u16>),
    Empty(bool),
    // of many puts, how many had each answer
    Puts {
        joined: u64,
        none: u64,
        refused: u64,
    },
    // of many takes, the tasks that they gave, and how many gave none
    Takes {
        tasks: Vec<u16>,
        nothing: u64,
        refused: u64,
    },
    Number(usize),
}

impl fmt::Display for Answer {
    fn fmt<W: fmt::Write>(&self, f: &mut fmt::Formatter<W>) -> fmt::Result {
        match self {
            Answer::Made => f.write_str("made"),
            Answer::Put(put) => write!(f, "{put}"),
            Answer::Taken(Some(task)) => write!(f, "task={task}"),
            Answer::Taken(None) => f.write_str("nothing"),
            Answer::Empty(true) => f.write_str("yes"),
            Answer::Empty(false) => f.write_str("no"),
            Answer::Puts {
                joined,
                none,
                refused,
            } => write!(f, "joined={joined} none={none} refused={refused}"),
            Answer::Takes {
                tasks,
                nothing,
                refused,
            } => {
                for task in tasks {
                    write!(f, "{task} ")?;
                }
                write!(f, "nothing={nothing} refused={refused}")
            }
            Answer::Number(number) => write!(f, "{number}"),
        }
    }
}

// Why a command has no answer.
#[derive(Clone, Copy, PartialEq, Eq, Debug)]
pub enum CommandError {
    Refused(Refusal),
    OutOfMemory,
}

impl fmt::Display for CommandError {
    fn fmt<W: fmt::Write>(&self, f: &mut fmt::Formatter<W>) -> fmt::Result {
        match *self {
            CommandError::Refused(refusal) => write!(f, "refused={}", u8::from(refusal)),
            CommandError::OutOfMemory => f.write_str("memory allocation failed"),
        }
    }
}

impl Error for CommandError {}

impl From<Refusal> for CommandError {
    fn from(refusal: Refusal) -> CommandError {
        CommandError::Refused(refusal)
    }
}

impl From<AllocError> for CommandError {
    fn from(_error: AllocError) -> CommandError {
        CommandError::OutOfMemory
    }
}
