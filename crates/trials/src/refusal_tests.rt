use values::Refusal;

// Each refusal with its number, and with words that its meaning has and no other's.
const REFUSALS: &[(Refusal, u8, &str)] = &[
    (Refusal::BlockSize, 1, "from 1 to 16"),
    (Refusal::FaultCount, 2, "t must be below n"),
    (Refusal::Resilience, 3, "above b + e + l"),
    (Refusal::StoreSize, 4, "store"),
    (Refusal::ProposalCount, 5, "proposal"),
    (Refusal::SetMembers, 6, "a set names"),
    (Refusal::ForbiddenMove, 7, "the move"),
    (Refusal::OutOfTurn, 8, "out of turn"),
    (Refusal::NoSuchPlace, 9, "column"),
    (Refusal::NotForgeable, 10, "receiver 0"),
    (Refusal::RoundLimit, 11, "1,000"),
    (Refusal::WasSeated, 12, "gripped"),
    (Refusal::FileSize, 21, "65,535"),
    (Refusal::HeaderCode, 22, "byte 5"),
    (Refusal::Layout, 23, "start"),
    (Refusal::Value, 24, "kind's rule"),
    (Refusal::ForgeryLine, 25, "tag"),
    (Refusal::TextRoom, 26, "512"),
];

#[test]
fn refusals_have_their_numbers(rt: HostRuntime) {
    for (refusal, number, _) in REFUSALS {
        assert_eq!(rt; u8::from(*refusal), *number);
    }
}

#[test]
fn each_refusal_has_its_own_words(rt: HostRuntime) {
    for (refusal, _, own) in REFUSALS {
        for (other, number, _) in REFUSALS {
            let has = other.meaning().contains(*own);
            assert!(rt;
                has == (*other == *refusal),
                "{own} in the words of {number}"
            );
        }
    }
}
