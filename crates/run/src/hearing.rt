ghost use Rattle.std.specs.Prelude.{◌≡◌, ◌*◌, ◌≤◌, length};
ghost use Rattle.models.specs.declared.sets.TheConstants.{MOST_CONTROLLERS};

use crate::layout::parts;
use crate::places::{forged_place, row_place};
use models::{Class, MOST_CONTROLLERS};
use protocol::Stage;
use values::{Cell, Kind};

/// What was sent in a round, as it lies in the store.
#[derive(Drop)]
pub struct Sent<'s, K: Kind> {
    /// The number of controllers.
    pub n: usize,
    /// What the round is for.
    pub stage: Stage,
    /// How each controller sends, by controller.
    pub classes: [Class; MOST_CONTROLLERS],
    /// The forged cells, by sender, receiver and column.
    pub forged: &'s [Cell<K::Row>],
    /// The controllers' rows, n cells each, by controller and column.
    pub rows: &'s [Cell<K::Row>],
    /// The v of each controller, by controller.
    pub v: &'s [Cell<K::Row>],
    /// The decision of each controller, by controller.
    pub decisions: &'s [Cell<K::Row>],
    ghost size: { n ≤ MOST_CONTROLLERS },
    ghost forged_size: { length forged.now ≡ n * n * n },
    ghost rows_size: { length rows.now ≡ n * n },
    ghost v_size: { length v.now ≡ n },
    ghost decisions_size: { length decisions.now ≡ n },
}

impl<'s, K: Kind> Sent<'s, K> {
    ghost use Rattle.std.specs.Prelude.{ℕ, ◌<◌, None, slice_index_or};
    ghost use Rattle.values.specs.Cells.{shows, seen};
    ghost use Rattle.protocol.specs.Stages.{columns_of};
    ghost use Rattle.protocol.specs.Rounds.{at_place, sends};
    ghost use Rattle.run.specs.Stores.{store, kept_cells};
    ghost use Rattle.run.specs.Hearing.{store_of, kept_by, hears, IsWithin};

    /// What was sent in a round of n controllers, by the cells that they keep and those that are forged.
    pub(crate) fn over(
        n: usize,
        stage: Stage,
        classes: [Class; MOST_CONTROLLERS],
        cells: &'s [Cell<K::Row>],
    ) -> Sent<'s, K>
        requires size { n ≤ MOST_CONTROLLERS }
        requires cells { kept_cells n ≤ length cells.now }
        ensures round { (result.n ≡ n) × (result.stage ≡ stage) × (result.classes ≡ classes) }
        ensures store { store_of result ≡ store n cells.now }
    {
        parts!(let (forged, rows, v, decisions, _) = cells.split_at(n));
        Sent {
            n,
            stage,
            classes,
            forged,
            rows,
            v,
            decisions,
        }
    }

    // What an honest sender sends in a column.
    fn sends(&self, sender: usize, column: usize) -> Cell<K::Row>
        requires sender { sender < self.now.n }
        requires column { column < columns_of self.now.stage self.now.n }
        ensures { shows K.rules K.plain result ≡ sends self.now.stage (kept_by self.now sender) column }
    {
        match self.stage {
            Stage::Proposing | Stage::Collecting => self.v[sender],
            Stage::Deciding => self.rows[row_place(self.n, sender, column)],
            Stage::Maintaining => self.decisions[sender],
        }
    }

    /// The cell that a receiver hears from a sender in a column.
    pub(crate) fn heard(&self, receiver: usize, sender: usize, column: usize) -> Cell<K::Row>
        requires receiver { receiver < self.now.n }
        requires sender { sender < self.now.n }
        requires column { column < columns_of self.now.stage self.now.n }
        ensures { shows K.rules K.plain result ≡ hears self.now receiver sender column }
    {
        match self.classes[sender] {
            Class::Honest => self.sends(sender, column),
            Class::Silent => None,
            Class::Uniform => self.forged[forged_place(self.n, sender, 0, column)],
            Class::Free => self.forged[forged_place(self.n, sender, receiver, column)],
        }
    }

    /// Puts what a receiver hears in a column into cells, by sender.
    pub(crate) fn hear_senders(&self, receiver: usize, column: usize, cells: &mut [Cell<K::Row>])
        requires receiver { receiver < self.now.n }
        requires column { column < columns_of self.now.stage self.now.n }
        requires size { length cells.old ≡ self.now.n }
        ensures { seen K.rules K.plain cells.new ≡ (λ sender. hears self.now receiver sender column) }
    {
        for sender in 0..self.n {
            cells[sender] = self.heard(receiver, sender, column);
        }
    }

    /// Puts what a receiver hears from a sender in a deciding round into cells, by column.
    pub(crate) fn hear_columns(&self, receiver: usize, sender: usize, cells: &mut [Cell<K::Row>])
        requires receiver { receiver < self.now.n }
        requires sender { sender < self.now.n }
        requires stage { self.now.stage ≡ Stage.Deciding }
        requires size { length cells.old ≡ self.now.n }
        ensures { seen K.rules K.plain cells.new ≡ (λ column. hears self.now receiver sender column) }
    {
        for column in 0..self.n {
            cells[column] = self.heard(receiver, sender, column);
        }
    }

    // The cell that a receiver hears in a column from the sender at a place; an empty one where there is no place.
    fn heard_at(&self, receiver: usize, place: Option<usize>, column: usize) -> Cell<K::Row>
        requires receiver { receiver < self.now.n }
        requires column { column < columns_of self.now.stage self.now.n }
        requires within { IsWithin self.now.n place }
        ensures { shows K.rules K.plain result ≡ at_place (λ j. hears self.now receiver j column) place }
    {
        self.heard(receiver, place?, column)
    }

    /// Puts what a receiver hears in each column from the sender at the column's place into cells, by column; an empty
    /// cell where the column has no place.
    pub(crate) fn hear_places(
        &self,
        receiver: usize,
        places: &[Option<usize>; MOST_CONTROLLERS],
        cells: &mut [Cell<K::Row>],
    )
        requires receiver { receiver < self.now.n }
        requires stage { self.now.stage ≡ Stage.Deciding }
        requires size { length cells.old ≡ self.now.n }
        requires within { (k : ℕ) → k < self.now.n → IsWithin self.now.n (slice_index_or places.now k None) }
        ensures { (k : ℕ) → k < self.now.n → seen K.rules K.plain cells.new k ≡ at_place (λ j. hears self.now receiver j k) (slice_index_or places.now k None) }
    {
        for column in 0..self.n {
            cells[column] = self.heard_at(receiver, places[column], column);
        }
    }
}
