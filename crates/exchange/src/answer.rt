ghost use Rattle.std.specs.Prelude.{◌≡◌, Some};

use std::fmt;

// What a put answers: the task has joined its queue, or there was no vacancy. An enum and no `bool`: promises say by case what each answer tells.
#[derive(Clone, Copy, PartialEq, Eq, Debug)]
pub enum Put {
    Joined,
    NoVacancy,
}

impl Put {
    ghost use Rattle.exchange.specs.Calls.{word_of};

    // The word for the answer. Beside `Display`, since it needs no writer and cannot fail.
    pub fn word(self) -> &'static str
        ensures { result.now ≡ word_of self }
    {
        match self {
            Put::Joined => "joined",
            Put::NoVacancy => "none",
        }
    }
}

// An answer prints as its word.
impl fmt::Display for Put {
    ghost use Rattle.exchange.specs.Calls.{word_of};

    ghost output = { λ answer. Some (word_of answer) };

    fn fmt<W: fmt::Write>(&self, f: &mut fmt::Formatter<W>) -> fmt::Result {
        f.write_str(self.word())
    }
}
