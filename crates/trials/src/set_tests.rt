use models::Set;

#[test]
fn bit_i_stands_for_controller_i(rt: HostRuntime) {
    let set = Set(0b1000_0000_0010_0001);
    for (controller, held) in &[(0, true), (1, false), (5, true), (14, false), (15, true)] {
        assert!(rt; set.holds(*controller) == *held, "{controller}");
    }
    assert_eq!(rt; set.size(), 3);
}

#[test]
fn a_number_of_16_or_more_is_in_no_set(rt: HostRuntime) {
    let all = Set(0xffff);
    for controller in &[16, 17, 63, 64, usize::MAX] {
        assert!(rt; !all.holds(*controller), "{controller}");
    }
    assert!(rt; all.holds(15));
    assert_eq!(rt; all.size(), 16);
    assert_eq!(rt; Set(0).size(), 0);
}
