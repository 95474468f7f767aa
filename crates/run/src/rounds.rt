ghost use Rattle.std.specs.Prelude.{◌≡◌, ℕ, suc, ◌+◌, ◌*◌, ◌<◌, ◌≤◌, length, Some, None, slice_index_or};
ghost use Rattle.values.specs.Cells.{seen, winning};
ghost use Rattle.protocol.specs.Rounds.{chosen, proposed, maintained, decided};
ghost use Rattle.run.specs.Hearing.{hears, Computes, IsWithin};

use crate::choosing::{chosen, held_by, settled};
use crate::hearing::Sent;
use models::{Counts, MOST_CONTROLLERS};
use protocol::{Stage, coordinator};
use values::{Cell, Kind, Quorum, winner};

// Puts what each receiver chooses among the cells that it hears in column 0 into `next`; `column` is to work in.
fn vote<K: Kind>(
    sent: &Sent<K>,
    quorum: Quorum,
    column: &mut [Cell<K::Row>],
    next: &mut [Cell<K::Row>],
)
    requires column { length column.old ≡ sent.now.n }
    requires next { length next.old ≡ sent.now.n }
    ensures { Computes sent.now (λ heard. chosen quorum.at_least quorum.otherwise_at_most (λ j. heard j 0) sent.now.n) next.new }
{
    for receiver in 0..sent.n {
        sent.hear_senders(receiver, 0, column);
        next[receiver] = chosen::<K>(column, quorum);
    }
}

/// Puts each receiver's v after a proposing round into `next`: the value, if there is one, that at least n - b cells
/// hold with at most l filled otherwise.
pub(crate) fn propose<K: Kind>(
    sent: &Sent<K>,
    counts: Counts,
    column: &mut [Cell<K::Row>],
    next: &mut [Cell<K::Row>],
)
    requires few { counts.b ≤ sent.now.n }
    requires column { length column.old ≡ sent.now.n }
    requires next { length next.old ≡ sent.now.n }
    ensures { Computes sent.now (λ heard. proposed sent.now.n counts (λ j. heard j 0)) next.new }
{
    let quorum = Quorum {
        at_least: sent.n - counts.b,
        otherwise_at_most: counts.l,
    };
    vote(sent, quorum, column, next);
}

/// Puts each receiver's decision after a maintaining round into `next`: the value, if there is one, that at least n - b
/// cells hold.
pub(crate) fn maintain<K: Kind>(
    sent: &Sent<K>,
    counts: Counts,
    column: &mut [Cell<K::Row>],
    next: &mut [Cell<K::Row>],
)
    requires few { counts.b ≤ sent.now.n }
    requires column { length column.old ≡ sent.now.n }
    requires next { length next.old ≡ sent.now.n }
    ensures { Computes sent.now (λ heard. maintained sent.now.n counts (λ j. heard j 0)) next.new }
{
    let quorum = held_by(sent.n - counts.b, column.len());
    vote(sent, quorum, column, next);
}

/// Puts the controllers' rows after a collecting round into `rows`: what each receiver hears in column 0, by sender.
pub(crate) fn collect<K: Kind>(sent: &Sent<K>, rows: &mut [Cell<K::Row>])
    requires stage { sent.now.stage ≡ Stage.Collecting }
    requires rows { length rows.old ≡ sent.now.n * sent.now.n }
    ensures { (i j : ℕ) → i < sent.now.n → j < sent.now.n → seen K.rules K.plain rows.new (i * sent.now.n + j) ≡ hears sent.now i j 0 }
{
    let n = sent.n;
    for place in 0..n * n {
        rows[place] = sent.heard(place / n, place % n, 0);
    }
}

// The place of a column's candidate: the value that more than l senders hold there, if there is one.
fn candidate<K: Kind>(column: &[Cell<K::Row>], counts: Counts) -> Option<usize>
    requires few { counts.l < MOST_CONTROLLERS }
    ensures place { result ≡ winning (suc counts.l) (length column.now) (seen K.rules K.plain column.now) (length column.now) }
    ensures within { IsWithin (length column.now) result }
{
    winner::<K>(column, held_by(counts.l + 1, column.len()))
}

// The places of the candidates of all columns, as a receiver hears them.
fn candidates<K: Kind>(
    sent: &Sent<K>,
    receiver: usize,
    counts: Counts,
    column: &mut [Cell<K::Row>],
) -> [Option<usize>; MOST_CONTROLLERS]
    requires receiver { receiver < sent.now.n }
    requires stage { sent.now.stage ≡ Stage.Deciding }
    requires few { counts.l < MOST_CONTROLLERS }
    requires column { length column.old ≡ sent.now.n }
    ensures places { (k : ℕ) → k < sent.now.n → slice_index_or result k None ≡ winning (suc counts.l) sent.now.n (λ j. hears sent.now receiver j k) sent.now.n }
    ensures within { (k : ℕ) → k < sent.now.n → IsWithin sent.now.n (slice_index_or result k None) }
{
    let mut places = [None; MOST_CONTROLLERS];
    for k in 0..sent.n {
        sent.hear_senders(receiver, k, column);
        places[k] = candidate::<K>(column, counts);
    }
    places
}

/// Puts the value that each receiver settles on in the deciding round of a phase into `next`. `column` and `cells` are
/// to work in.
pub(crate) fn decide<K: Kind>(
    sent: &Sent<K>,
    counts: Counts,
    phase: usize,
    column: &mut [Cell<K::Row>],
    cells: &mut [Cell<K::Row>],
    next: &mut [Cell<K::Row>],
)
    requires phase { phase < sent.now.n }
    requires stage { sent.now.stage ≡ Stage.Deciding }
    requires few { counts.l + counts.e < MOST_CONTROLLERS }
    requires column { length column.old ≡ sent.now.n }
    requires cells { length cells.old ≡ sent.now.n }
    requires next { length next.old ≡ sent.now.n }
    ensures { Computes sent.now (λ heard. Some (decided (record { n = sent.now.n; counts = counts; fallback = K.rules.fallback }) phase heard)) next.new }
{
    for receiver in 0..sent.n {
        let places = candidates(sent, receiver, counts, column);
        sent.hear_places(receiver, &places, cells);
        sent.hear_columns(receiver, coordinator(phase), column);
        next[receiver] = Some(settled::<K>(cells, column, counts));
    }
}
