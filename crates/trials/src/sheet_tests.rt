use crate::helpers::{read_row, shares};
use values::{Buffer, Kind, Sheet};

#[test]
fn shares_total_at_most_1000(rt: HostRuntime) {
    let read = [
        (
            [0x90, 1, 0x2c, 1, 200, 0, 100, 0],
            Ok(shares(400, 300, 200, 100)),
        ),
        ([0x90, 1, 0x2c, 1, 200, 0, 101, 0], Err(24)),
        (
            [0x2c, 1, 0x2c, 1, 200, 0, 100, 0],
            Ok(shares(300, 300, 200, 100)),
        ),
    ];
    for (bytes, row) in &read {
        assert_eq!(rt; read_row::<Sheet>(bytes), *row, "of {bytes:?}");
    }
    for (last, lawful) in &[(0, true), (1, false)] {
        assert!(rt; Sheet::checked(&shares(1000, 0, 0, *last)).is_some() == *lawful);
    }
}

#[test]
fn the_total_does_not_wrap(rt: HostRuntime) {
    assert_eq!(rt; read_row::<Sheet>(&[0xff, 0xff, 1, 0, 0, 0, 0, 0]), Err(24));
    for row in &[shares(65535, 1, 0, 0), shares(65535, 65535, 65535, 65535)] {
        assert!(rt; Sheet::checked(row).is_none());
    }
}

#[test]
fn eight_bytes_are_read(rt: HostRuntime) {
    let zeros = [0; 9];
    let none = shares(0, 0, 0, 0);
    for (len, row) in &[(0, Err(24)), (7, Err(24)), (8, Ok(none)), (9, Err(24))] {
        assert_eq!(rt; read_row::<Sheet>(&zeros[..*len]), *row, "of {len} bytes");
    }
    assert_eq!(rt; Sheet::WIDTH, 8);
}

#[test]
fn a_row_over_the_whole_stands_for_the_fallback(rt: HostRuntime) {
    let broken = Sheet::value(&shares(65535, 1, 0, 0));
    assert!(rt; broken.same(&Sheet::fallback()));
    assert!(rt; broken.same(&Sheet::value(&shares(250, 250, 250, 250))));
    assert!(rt; !broken.same(&Sheet::value(&shares(250, 250, 250, 249))));
}

#[test]
fn text_is_four_numbers_separated_by_a_blank(rt: HostRuntime) {
    let mut room = [b'.'; 18];
    let mut out = Buffer::over(&mut room);
    Sheet::value(&shares(400, 300, 0, 17)).write(&mut out);
    assert_eq!(rt; out.len(), 12);
    assert_eq!(rt; room, *b"400 300 0 17......");
}
