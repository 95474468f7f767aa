use crate::helpers::from_to;
use crate::leaving::{Leaving, may_stay, may_stay_stamped};
use models::{Class, Model, Set, Standard};

#[test]
fn a_model_written_outside_lets_faults_leave_only(rt: HostRuntime) {
    let moves = [
        (0b111, 0b101, true),
        (0b111, 0, true),
        (0b101, 0b110, false),
    ];
    for (before, after, allowed) in &moves {
        let allows = Leaving.allows(from_to(*before, *after, 3));
        assert!(rt; allows == *allowed, "{before} to {after}");
    }
    for (controller, class) in &[(0, Class::Free), (1, Class::Silent), (2, Class::Honest)] {
        assert_eq!(rt; Leaving.class(from_to(0b11, 0b01, 2), *controller), *class);
    }
}

#[test]
fn under_a_lawful_model_a_set_may_stay(rt: HostRuntime) {
    let set = Set(0b110);
    let answers = [
        may_stay(&Leaving, set, 2),
        may_stay_stamped(Leaving, set, 2),
        may_stay(&Standard::Fixed, set, 2),
        may_stay_stamped(Standard::Fixed, set, 2),
    ];
    assert_eq!(rt; answers, [true; 4]);
}
