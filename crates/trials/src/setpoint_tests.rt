use crate::helpers::read_row;
use values::{Buffer, Kind, Setpoint};

#[test]
fn range_is_200_to_900(rt: HostRuntime) {
    let ends = [
        ([199, 0], Err(24)),
        ([200, 0], Ok(200)),
        ([132, 3], Ok(900)),
        ([133, 3], Err(24)),
    ];
    for (bytes, row) in &ends {
        assert_eq!(rt; read_row::<Setpoint>(bytes), *row, "of {bytes:?}");
    }
}

#[test]
fn two_bytes_are_read_low_byte_first(rt: HostRuntime) {
    const READ: &[(&[u8], Result<u16, u8>)] = &[
        (&[0xf4, 0x01], Ok(500)),
        (&[0x01, 0xf4], Err(24)),
        (&[], Err(24)),
        (&[0xf4], Err(24)),
        (&[0xf4, 0x01, 0x00], Err(24)),
    ];
    for (bytes, row) in READ {
        assert_eq!(rt; read_row::<Setpoint>(bytes), *row, "of {bytes:?}");
    }
}

#[test]
fn a_row_out_of_range_stands_for_the_fallback(rt: HostRuntime) {
    assert_eq!(rt; Setpoint::fallback().tenths(), 400);
    for (row, tenths) in &[(199, 400), (65535, 400), (900, 900)] {
        assert_eq!(rt; Setpoint::value(row).tenths(), *tenths, "of {row}");
    }
    assert_eq!(rt; Setpoint::value(&900).row(), 900);
}

#[test]
fn sameness_goes_by_the_value(rt: HostRuntime) {
    assert!(rt; Setpoint::value(&901).same(&Setpoint::value(&400)));
    assert!(rt; !Setpoint::value(&500).same(&Setpoint::value(&501)));
}

#[test]
fn text_is_decimal_and_cut_where_room_ends(rt: HostRuntime) {
    let mut room = [b'.'; 5];
    let mut out = Buffer::over(&mut room);
    Setpoint::value(&905).write(&mut out);
    assert_eq!(rt; out.len(), 3);
    Setpoint::value(&610).write(&mut out);
    assert_eq!(rt; out.len(), 5);
    assert_eq!(rt; room, *b"40061");
}

#[test]
fn width_is_two_bytes(rt: HostRuntime) {
    assert_eq!(rt; Setpoint::WIDTH, 2);
}
