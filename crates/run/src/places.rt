ghost use Rattle.std.specs.Prelude.{◌≡◌, ◌+◌, ◌*◌, ◌<◌, ◌≤◌};

use models::MOST_CONTROLLERS;

/// The place of a column of a controller's row among the n * n cells of all controllers' rows.
pub(crate) fn row_place(n: usize, controller: usize, column: usize) -> usize
    requires size { n ≤ MOST_CONTROLLERS }
    requires controller { controller < n }
    requires column { column < n }
    ensures value { result ≡ controller * n + column }
    ensures within { result < n * n }
{
    controller * n + column
}

/// The place of a message's column among the n * n * n forged cells.
pub(crate) fn forged_place(n: usize, sender: usize, receiver: usize, column: usize) -> usize
    requires size { n ≤ MOST_CONTROLLERS }
    requires sender { sender < n }
    requires receiver { receiver < n }
    requires column { column < n }
    ensures value { result ≡ (sender * n + receiver) * n + column }
    ensures within { result < n * n * n }
{
    row_place(n, sender, receiver) * n + column
}
