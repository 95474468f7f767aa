ghost use Rattle.std.specs.Prelude.{◌≡◌};

use models::MOST_CONTROLLERS;
use std::alloc::AllocError;
use std::error::Error;
use std::fmt;
use values::Refusal;

/// What a line of a script should have at the place where it goes wrong.
#[derive(Clone, Copy, PartialEq, Eq, Debug)]
pub enum Expected {
    /// The kind of values, which a script begins with.
    Kind,
    /// The name of a model.
    Model,
    /// Nothing more, or the word `stamped`.
    Stamped,
    /// The word that a call begins with.
    Call,
    /// A number that a call takes.
    Number,
    /// A set.
    Set,
    /// A value.
    Value,
    /// A value, or the word `empty`.
    Cell,
    /// The end of the line.
    End,
}

impl fmt::Display for Expected {
    fn fmt<W: fmt::Write>(&self, f: &mut fmt::Formatter<W>) -> fmt::Result {
        let most = usize::MAX;
        let last = MOST_CONTROLLERS - 1;
        let largest = u16::MAX;
        match self {
            Expected::Kind => f.write_str("a kind of values: setpoint or sheet"),
            Expected::Model => f.write_str("a model: aware, unaware, buffered, carried or fixed"),
            Expected::Stamped => f.write_str("nothing more, or the word stamped"),
            Expected::Call => f.write_str("a call: open, seat, forge, close or decision"),
            Expected::Number => write!(f, "a number from 0 to {most}"),
            Expected::Set => write!(
                f,
                "a set of controllers from 0 to {last}, as {{0,3}} or {{}}, with no blank in it"
            ),
            Expected::Value => write!(
                f,
                "a value, as 500 or 400/300/200/100, each number up to {largest}"
            ),
            Expected::Cell => write!(
                f,
                "a value, as 500 or 400/300/200/100, each number up to {largest}, or the word empty"
            ),
            Expected::End => f.write_str("nothing more"),
        }
    }
}

/// What is wrong with a line of a script.
#[derive(Clone, Copy, PartialEq, Eq, Debug)]
pub enum Wrong {
    /// It cannot be understood: something else was expected.
    Expected(Expected),
    /// It is understood, and refused: a value breaks the rule of its kind.
    Refused(Refusal),
}

/// What is wrong with a line, and with which. Displays as one line for people, as docs/BENCH.md has it.
#[derive(Clone, Copy, PartialEq, Eq, Debug)]
pub struct Flaw {
    /// The number of the line, from 1 on.
    pub line: usize,
    /// What is wrong with it.
    pub wrong: Wrong,
}

// The gate compares what is printed with the second program's: no contract can promise the words of a refusal.
impl fmt::Display for Flaw {
    fn fmt<W: fmt::Write>(&self, f: &mut fmt::Formatter<W>) -> fmt::Result {
        let Flaw { line, wrong } = self;
        match wrong {
            Wrong::Expected(expected) => write!(f, "line {line}: expected {expected}"),
            Wrong::Refused(refusal) => {
                let meaning = refusal.meaning();
                write!(f, "line {line}: refused {refusal}: {meaning}")
            }
        }
    }
}

impl Error for Flaw {}

/// How many flaws are told at most.
const MOST_TOLD: usize = 20;

/// The flaws of a script's lines, in the order of the lines. Displays as a line for each, as docs/BENCH.md has it, which
/// says how many are told; a last line says how many more there are.
#[derive(Drop, Debug)]
pub struct Flaws {
    /// All of them.
    pub all: Vec<Flaw>,
}

impl fmt::Display for Flaws {
    fn fmt<W: fmt::Write>(&self, f: &mut fmt::Formatter<W>) -> fmt::Result {
        let told = self.all.len().min(MOST_TOLD);
        for (index, flaw) in self.all[..told].iter().enumerate() {
            if index > 0 {
                f.write_str("\n")?;
            }
            write!(f, "{flaw}")?;
        }
        let more = self.all.len() - told;
        if more > 0 {
            write!(f, "\nmore faulty lines: {more}")?;
        }
        Ok(())
    }
}

/// Why there is no script. Displays as lines for people.
#[derive(Drop, Debug)]
pub enum ScriptError {
    /// Some of its lines have a flaw.
    Flawed(Flaws),
    /// The heap has not enough memory for it.
    NoMemory,
}

impl fmt::Display for ScriptError {
    fn fmt<W: fmt::Write>(&self, f: &mut fmt::Formatter<W>) -> fmt::Result {
        match self {
            ScriptError::Flawed(flaws) => write!(f, "{flaws}"),
            ScriptError::NoMemory => f.write_str("there is not memory enough"),
        }
    }
}

impl Error for ScriptError {}

impl From<AllocError> for ScriptError {
    ghost use Rattle.script.specs.declared.flaws.ScriptError.TheVariants.{NoMemory};

    ghost from_gives = { λ _ r. r ≡ NoMemory };

    fn from(_: AllocError) -> ScriptError {
        ScriptError::NoMemory
    }
}
