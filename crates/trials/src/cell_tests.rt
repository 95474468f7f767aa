use crate::helpers::{quorum, shares};
use values::{Cell, Setpoint, Sheet, same_value, tally, winner};

#[test]
fn empty_cells_count_for_neither(rt: HostRuntime) {
    let cells = [Some(500), Some(500), Some(500), None, Some(610)];
    for (row, counts) in &[(500, (3, 1)), (610, (1, 3)), (700, (0, 4))] {
        assert_eq!(rt; tally::<Setpoint>(&cells, row), *counts, "of {row}");
    }
    assert_eq!(rt; tally::<Setpoint>(&[], &500), (0, 0));
}

#[test]
fn a_broken_row_counts_as_the_fallback(rt: HostRuntime) {
    let cells = [Some(901), Some(400), Some(0), Some(401)];
    for row in &[400, 65535] {
        assert_eq!(rt; tally::<Setpoint>(&cells, row), (3, 1), "of {row}");
    }
    for (row, same) in &[(901, true), (401, false)] {
        assert!(rt; same_value::<Setpoint>(row, &400) == *same, "of {row}");
    }
}

#[test]
fn the_lowest_place_wins(rt: HostRuntime) {
    const CELLS: &[Cell<u16>] = &[None, Some(610), Some(500), Some(500), Some(610)];
    const BEHIND: &[Cell<u16>] = &[Some(500), Some(500), Some(610)];
    const WINS: &[(&[Cell<u16>], usize, usize, Option<usize>)] = &[
        (CELLS, 2, 2, Some(1)),
        (CELLS, 2, 1, None),
        (CELLS, 3, 4, None),
        (BEHIND, 2, 1, Some(0)),
        (&[None], 0, 0, None),
    ];
    for (cells, least, most, place) in WINS {
        let won = winner::<Setpoint>(cells, quorum(*least, *most));
        assert_eq!(rt; won, *place, "with {least} and {most} of {cells:?}");
    }
}

#[test]
fn sheets_are_counted_alike(rt: HostRuntime) {
    let even = shares(250, 250, 250, 250);
    let broken = shares(65535, 1, 0, 0);
    let last = shares(250, 250, 250, 249);
    let cells = [Some(last), Some(broken), None, Some(even)];
    for (row, counts) in &[(even, (2, 1)), (last, (1, 2))] {
        assert_eq!(rt; tally::<Sheet>(&cells, row), *counts);
    }
    assert_eq!(rt; winner::<Sheet>(&cells, quorum(2, 1)), Some(1));
}
