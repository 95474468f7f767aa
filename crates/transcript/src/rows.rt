ghost use Rattle.std.specs.Prelude.{◌≡◌, IfOk, map};
ghost use Rattle.values.specs.Rules.{means, stands};
ghost use Rattle.run.specs.Calls.{asked};
ghost use Rattle.script.specs.Figures.{numbers_of};
ghost use Rattle.script.specs.Statements.{call_by, call_under};

use run::{Call, Opening};
use script::{Figure, Statement};
use std::alloc::{AllocError, Global};
use values::{Kind, Setpoint, Shares, Sheet};

/// A kind of values that scripts can vote on.
pub trait Scripted: Kind {
    /// The row with a figure's numbers; the fallback's where these are more or fewer than a value of the kind has.
    fn row_of(figure: Figure) -> Self::Row
        ensures { means Self.Kind.rules Self.Kind.plain result ≡ stands Self.Kind.rules (numbers_of figure) };

    /// The value as a figure.
    fn figure(&self) -> Figure
        ensures { numbers_of result ≡ Self.Kind.meaning self.now };
}

impl Scripted for Setpoint {
    fn row_of(figure: Figure) -> u16 {
        match figure {
            Figure::Setpoint(tenths) => tenths,
            // A sheet's four numbers are no setpoint.
            Figure::Sheet(_) => Setpoint::fallback().row(),
        }
    }

    fn figure(&self) -> Figure {
        Figure::Setpoint(self.tenths())
    }
}

impl Scripted for Sheet {
    fn row_of(figure: Figure) -> Shares {
        match figure {
            Figure::Sheet(shares) => shares,
            // A setpoint's one number is no sheet.
            Figure::Setpoint(_) => Sheet::fallback().row(),
        }
    }

    fn figure(&self) -> Figure {
        Figure::Sheet(self.row())
    }
}

// The rows of what controllers propose.
fn proposals<K: Scripted>(heap: Global, figures: &[Figure]) -> Result<Vec<K::Row>, AllocError>
    ensures { IfOk result (λ rows. map (means K.rules K.plain) rows.items ≡ map (λ figure. stands K.rules (numbers_of figure)) figures.now) }
{
    figures
        .iter()
        .map(|figure| K::row_of(*figure))
        .collect(heap)
}

/// The statement with the rows of a kind in place of figures. Figures that break its rule stand for its fallback.
pub(crate) fn rows<K: Scripted>(
    heap: Global,
    statement: &Statement<Figure>,
) -> Result<Statement<K::Row>, AllocError>
    ensures { IfOk result (λ s. call_by (means K.rules K.plain) s ≡ call_under K.rules statement.now) }
{
    match statement {
        Statement::Open {
            n,
            t,
            initial,
            proposals: figures,
        } => Ok(Statement::Open {
            n: *n,
            t: *t,
            initial: *initial,
            proposals: proposals::<K>(heap, figures)?,
        }),
        Statement::Seat(set) => Ok(Statement::Seat(*set)),
        Statement::Forge(place, cell) => {
            // By a closure: the language takes no path to a generic function.
            Ok(Statement::Forge(*place, cell.map(|figure| K::row_of(figure))))
        }
        Statement::Close => Ok(Statement::Close),
        Statement::Decision(controller) => Ok(Statement::Decision(*controller)),
    }
}

/// The call that a statement asks of a run, with the statement's own proposals.
pub(crate) fn call<K: Kind>(statement: &Statement<K::Row>) -> Call<'_, K::Row>
    ensures { asked K.rules K.plain result ≡ call_by (means K.rules K.plain) statement.now }
{
    match statement {
        Statement::Open {
            n,
            t,
            initial,
            proposals,
        } => Call::Open(Opening {
            n: *n,
            t: *t,
            proposals,
            initial: *initial,
        }),
        Statement::Seat(set) => Call::Seat(*set),
        Statement::Forge(place, cell) => Call::Forge(*place, *cell),
        Statement::Close => Call::Close,
        Statement::Decision(controller) => Call::Decision(*controller),
    }
}
