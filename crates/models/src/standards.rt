ghost use Rattle.std.specs.Prelude.{◌≡◌, ◌++◌, Some, decimal, codes};
ghost use Rattle.models.specs.Laws.{Reached};
ghost use Rattle.models.specs.Standards.{code_of, Decodes, standard};
ghost use Rattle.std.proofs.Common.{rules};

use crate::classes::{Class, Counts};
use crate::moves::Moved;
use crate::{LawfulModel, Model as FaultModel};
use std::error::Error;
use std::fmt;

/// Five models of the literature.
#[derive(Clone, Copy, PartialEq, Eq, Debug)]
pub enum Standard {
    /// A controller that a fault left knows it, and is silent for a round (Garay 1994).
    Aware = 0,
    /// A controller that a fault left does not know it, and sends from scrambled memory, the same to all
    /// (Nguyen, Bonnet, Défago, Potop-Butucaru, IS-RR-2014-004).
    Unaware = 1,
    /// A fault leaves prepared messages in a send buffer, so the controller that it left is free for one round more
    /// (Sasaki, Yamauchi, Kijima, Yamashita 2013).
    Buffered = 2,
    /// A fault travels with the messages, so it arrives after its new host has sent (Buhrman, Garay, Hoepman 1995).
    Carried = 3,
    /// A fault never moves: the classical case.
    Fixed = 4,
}

// How many times t the counts of a model are, by its code. The definitions read this table too.
const MULTIPLES: [Counts; 5] = [
    Counts { b: 2, e: 1, l: 1 },
    Counts { b: 2, e: 1, l: 2 },
    Counts { b: 2, e: 2, l: 2 },
    Counts { b: 1, e: 1, l: 1 },
    Counts { b: 1, e: 1, l: 1 },
];

/// A code that names no model.
#[derive(Clone, Copy, PartialEq, Eq, Debug)]
pub struct UnknownModel(pub u8);

impl fmt::Display for UnknownModel {
    ghost output = { λ unknown. Some (codes "no model has code " ++ decimal unknown.0) };

    fn fmt<W: fmt::Write>(&self, f: &mut fmt::Formatter<W>) -> fmt::Result {
        write!(f, "no model has code {}", self.0)
    }
}

impl Error for UnknownModel {}

impl From<Standard> for u8 {
    ghost from_gives = { λ model code. code ≡ code_of model };

    /// The code by which run files name the model, 0 to 4.
    fn from(model: Standard) -> u8 {
        model as u8
    }
}

impl TryFrom<u8> for Standard {
    type Error = UnknownModel;

    ghost try_from_gives = { Decodes };

    /// The model with a code; for a code above 4 an error that tells it.
    fn try_from(code: u8) -> Result<Standard, UnknownModel> {
        match code {
            0 => Ok(Standard::Aware),
            1 => Ok(Standard::Unaware),
            2 => Ok(Standard::Buffered),
            3 => Ok(Standard::Carried),
            4 => Ok(Standard::Fixed),
            _ => Err(UnknownModel(code)),
        }
    }
}

impl FaultModel for Standard {
    ghost meaning = { standard };

    ghost bounded = { Prim.search rules };

    ghost capped = { Prim.search rules };

    fn allows(&self, moved: Moved) -> bool {
        match self {
            Standard::Fixed => moved.before == moved.after,
            _ => true,
        }
    }

    fn class(&self, moved: Moved, controller: usize) -> Class {
        let was = moved.before.holds(controller);
        let is = moved.after.holds(controller);
        match (self, was, is) {
            (_, false, false) => Class::Honest,
            (Standard::Carried, false, true) => Class::Honest,
            (Standard::Aware, true, false) => Class::Silent,
            (Standard::Unaware, true, false) => Class::Uniform,
            _ => Class::Free,
        }
    }

    fn counts(&self, t: usize) -> Counts {
        let t = t.min(15);
        let times = MULTIPLES[*self as usize];
        Counts {
            b: times.b * t,
            e: times.e * t,
            l: times.l * t,
        }
    }
}

impl LawfulModel for Standard {
    fn lawful(&self) {}
}

/// No count is higher than it must be: for each model an allowed move of one fault reaches all three at t = 1.
///
/// Calling this does nothing; its promise is the theorem.
// The laws allow no lower counts, so they and this fix the table.
pub fn counts_are_reached(model: Standard)
    ensures { Reached (standard model) }
{}
