use crate::helpers::from_to;
use models::Class::{Free, Honest, Silent, Uniform};
use models::{Class, Counts, Model, Stamped, Standard, UnknownModel};
use std::process::Abort;

// The classes of controllers 0 to 3 as the faults move from {0, 1} to {1, 2}: left, stayed, came, in neither set.
fn classes<M: Model>(model: &M) -> [Class; 4] {
    let moved = from_to(0b0011, 0b0110, 2);
    [0, 1, 2, 3].map(|controller| model.class(moved, controller))
}

fn has_classes<M: Model>(rt: &impl Abort, model: &M, those: [Class; 4]) {
    assert_eq!(rt; classes(model), those);
}

// The counts b, e and l.
fn has_counts<M: Model>(rt: &impl Abort, model: &M, t: usize, those: (usize, usize, usize)) {
    let Counts { b, e, l } = model.counts(t);
    assert_eq!(rt; (b, e, l), those, "at t = {t}");
}

#[test]
fn classes_are_those_of_the_table(rt: HostRuntime) {
    let table = [
        (Standard::Aware, [Silent, Free, Free, Honest]),
        (Standard::Unaware, [Uniform, Free, Free, Honest]),
        (Standard::Buffered, [Free, Free, Free, Honest]),
        (Standard::Carried, [Free, Free, Honest, Honest]),
        (Standard::Fixed, [Free, Free, Free, Honest]),
    ];
    for (model, those) in &table {
        has_classes(&rt, model, *those);
    }
}

#[test]
fn a_number_of_16_or_more_is_honest(rt: HostRuntime) {
    const NUMBERS: &[(Standard, usize, usize)] = &[
        (Standard::Buffered, 15, 16),
        (Standard::Carried, usize::MAX, usize::MAX),
    ];
    for (model, t, controller) in NUMBERS {
        let class = model.class(from_to(0xffff, 0xffff, *t), *controller);
        assert_eq!(rt; class, Honest, "under {model:?}");
    }
}

#[test]
fn only_fixed_forbids_moves(rt: HostRuntime) {
    const MOVES: &[(Standard, u16, u16, bool)] = &[
        (Standard::Aware, 1, 2, true),
        (Standard::Aware, 1, 1, true),
        (Standard::Unaware, 1, 2, true),
        (Standard::Unaware, 1, 1, true),
        (Standard::Buffered, 1, 2, true),
        (Standard::Buffered, 1, 1, true),
        (Standard::Carried, 1, 2, true),
        (Standard::Carried, 1, 1, true),
        (Standard::Fixed, 4, 4, true),
        (Standard::Fixed, 4, 8, false),
        (Standard::Fixed, 4, 0, false),
    ];
    for (model, before, after, allowed) in MOVES {
        let allows = model.allows(from_to(*before, *after, 1));
        assert!(rt; allows == *allowed, "under {model:?} to {after}");
    }
}

#[test]
fn counts_are_multiples_of_t_up_to_15(rt: HostRuntime) {
    const TABLE: &[(Standard, usize, (usize, usize, usize))] = &[
        (Standard::Aware, 3, (6, 3, 3)),
        (Standard::Unaware, 1, (2, 1, 2)),
        (Standard::Buffered, 15, (30, 30, 30)),
        (Standard::Carried, 16, (15, 15, 15)),
        (Standard::Fixed, usize::MAX, (15, 15, 15)),
        (Standard::Fixed, 0, (0, 0, 0)),
    ];
    for (model, t, those) in TABLE {
        has_counts(&rt, model, *t, *those);
    }
}

#[test]
fn stamps_make_the_free_uniform(rt: HostRuntime) {
    let aware = Stamped(Standard::Aware);
    has_classes(&rt, &aware, [Silent, Uniform, Uniform, Honest]);
    has_counts(&rt, &aware, 1, (2, 0, 1));
    let carried = Stamped(Standard::Carried);
    has_classes(&rt, &carried, [Uniform, Uniform, Honest, Honest]);
    has_counts(&rt, &carried, 1, (1, 0, 1));
    let buffered = Stamped(Stamped(Standard::Buffered));
    has_classes(&rt, &buffered, [Uniform, Uniform, Uniform, Honest]);
    has_counts(&rt, &buffered, 99, (30, 0, 30));
    assert!(rt; !Stamped(Standard::Fixed).allows(from_to(4, 8, 1)));
}

#[test]
fn codes_are_0_to_4(rt: HostRuntime) {
    const CODES: &[(u8, Standard)] = &[(0, Standard::Aware), (3, Standard::Carried)];
    for (code, model) in CODES {
        assert!(rt; Standard::try_from(*code) == Ok(*model), "{code}");
    }
    for code in 0..=255u8 {
        match Standard::try_from(code) {
            Ok(model) => assert_eq!(rt; u8::from(model), code),
            Err(unknown) => assert!(rt; code > 4 && unknown == UnknownModel(code)),
        }
    }
}
