ghost use Rattle.std.specs.Prelude.{◌≡◌, ◌≤◌, min};
ghost use Rattle.protocol.specs.Machine.{needed};
ghost use Rattle.run.specs.Stores.{kept_cells, work_cells};

use models::MOST_CONTROLLERS;

/// How many cells the largest block needs, which has 16 controllers.
pub const MOST_CELLS: usize = 4688;

/// How many cells a block of n controllers needs: n * n * n + 2 * n * n + 5 * n. No block has more than 16, so a larger
/// n is read as 16, and the result is at most `MOST_CELLS`.
pub fn needed(n: usize) -> usize
    ensures value { result ≡ needed (min n MOST_CONTROLLERS) }
    ensures most { (result ≤ MOST_CELLS) × (MOST_CONTROLLERS ≤ n → result ≡ MOST_CELLS) }
{
    let n = n.min(MOST_CONTROLLERS);
    kept_cells(n) + work_cells(n)
}

/// How many cells a block keeps from call to call: forged cells, controllers' rows, v and decisions.
pub(crate) fn kept_cells(n: usize) -> usize
    requires { n ≤ MOST_CONTROLLERS }
    ensures { result ≡ kept_cells n }
{
    n * n * n + n * n + 2 * n
}

/// How many cells a close works in; they come after those that are kept.
pub(crate) fn work_cells(n: usize) -> usize
    requires { n ≤ MOST_CONTROLLERS }
    ensures { result ≡ work_cells n }
{
    n * n + 3 * n
}

/// Cuts the store of a block of n controllers into its parts, by `split_at` or by `split_at_mut`: n * n * n forged
/// cells, by sender, receiver and column; n * n cells of controllers' rows, by controller and column; n cells v and n
/// decisions, by controller; and the cells after them.
// The layout stands here and in `store` of the definitions alone. It is a macro, since no function's contract can tell
// what becomes of a slice that it lends on in more than two parts.
macro_rules! parts {
    (let ($forged:pat, $rows:pat, $v:pat, $decisions:pat, $past:pat) = $cells:ident.$split:ident($n:expr)) => {
        let ($forged, rest) = $cells.$split($n * $n * $n);
        let ($rows, rest) = rest.$split($n * $n);
        let ($v, rest) = rest.$split($n);
        let ($decisions, $past) = rest.$split($n);
    };
}

pub(crate) use parts;
