use protocol::{Stage, coordinator};

#[test]
fn a_block_of_two_maintains_after_two_phases(rt: HostRuntime) {
    let stages = [
        Stage::Proposing,
        Stage::Collecting,
        Stage::Deciding,
        Stage::Proposing,
        Stage::Collecting,
        Stage::Deciding,
        Stage::Maintaining,
        Stage::Maintaining,
    ];
    for (round, stage) in stages.iter().enumerate() {
        assert_eq!(rt; Stage::of(2, round), *stage, "in round {round}");
    }
}

#[test]
fn stages_at_the_edges(rt: HostRuntime) {
    let edges = [
        (16, 47, Stage::Deciding),
        (16, 48, Stage::Maintaining),
        (1, usize::MAX, Stage::Maintaining),
        (0, 0, Stage::Maintaining),
    ];
    for (n, round, stage) in &edges {
        assert_eq!(rt; Stage::of(*n, *round), *stage, "round {round} of {n}");
    }
}

#[test]
fn only_a_deciding_message_has_a_column_for_each(rt: HostRuntime) {
    let columns = [
        (Stage::Proposing, 1),
        (Stage::Collecting, 1),
        (Stage::Deciding, 6),
        (Stage::Maintaining, 1),
    ];
    for (stage, count) in &columns {
        assert_eq!(rt; stage.columns(6), *count, "{stage:?}");
    }
}

#[test]
fn phases_are_coordinated_in_order_of_number(rt: HostRuntime) {
    for phase in &[0, 1, 15] {
        assert_eq!(rt; coordinator(*phase), *phase);
    }
}
