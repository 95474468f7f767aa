use crate::helpers::quorum;
use crate::windows::Window;
use std::test::Fail;
use values::{Buffer, Kind, tally, winner};

#[test]
fn a_kind_written_outside_is_counted(rt: HostRuntime) {
    let cells = [
        Some((600, 500)),
        None,
        Some((480, 1080)),
        Some((0, 60)),
        Some((0, 1441)),
    ];
    for (row, counts) in &[((480, 1080), (3, 1)), ((7, 6), (3, 1)), ((0, 61), (0, 4))] {
        assert_eq!(rt; tally::<Window>(&cells, row), *counts, "of {row:?}");
    }
    let wins = [
        (0, 3, 1, Some(0)),
        (0, 1, 3, Some(0)),
        (1, 3, 0, None),
        (0, 4, 4, None),
    ];
    for (from, least, most, place) in &wins {
        assert_eq!(rt;
            winner::<Window>(&cells[*from..], quorum(*least, *most)),
            *place,
            "{least} {most}"
        );
    }
}

#[test]
fn a_kind_written_outside_is_read_and_written(rt: HostRuntime) -> Result<(), Fail> {
    assert!(rt; Window::read(&[60, 0, 59, 0]).is_err());
    let window = Window::read(&[60, 0, 160, 5])?;
    let mut room = [b'.'; 9];
    let mut out = Buffer::over(&mut room);
    window.write(&mut out);
    assert_eq!(rt; room, *b"60 1440..");
    Ok(())
}
