use crate::helpers::shares;
use models::{Set, Standard};
use run::{Opening, Place, Run};
use std::process::Abort;
use values::{Refusal, Shares, Sheet};

// Rounds in which nobody is seated.
fn pass(run: &mut Run<Sheet>, rounds: usize) -> Result<(), Refusal> {
    for _ in 0..rounds {
        run.seat(&Standard::Carried, Set(0))?;
        run.close()?;
    }
    Ok(())
}

#[test]
fn three_like_sheets_are_decided(rt: HostRuntime) -> Result<(), Refusal> {
    let sheet = shares(400, 300, 200, 100);
    let broken = shares(65535, 1, 0, 0);
    let opening = Opening {
        n: 4,
        t: 1,
        proposals: &[sheet, sheet, sheet, broken],
        initial: Set(1 << 3),
    };
    let mut cells = [None; 116];
    let mut run = Run::<Sheet>::new(&mut cells);
    run.open(&Standard::Carried, opening)?;
    run.seat(&Standard::Carried, Set(0))?;
    let place = Place {
        sender: 3,
        receiver: 0,
        column: 0,
    };
    run.forge(place, Some(broken))?;
    run.close()?;
    pass(&mut run, 11)?;
    for controller in 0..4 {
        assert_eq!(rt; run.decision(controller)?, Some(sheet));
    }
    Ok(())
}

#[test]
fn sheets_that_differ_give_the_fallback(rt: HostRuntime) -> Result<(), Refusal> {
    let opening = Opening {
        n: 2,
        t: 0,
        proposals: &[shares(400, 300, 200, 100), shares(400, 300, 200, 99)],
        initial: Set(0),
    };
    let mut cells = [None; 26];
    let mut run = Run::<Sheet>::new(&mut cells);
    run.open(&Standard::Carried, opening)?;
    pass(&mut run, 6)?;
    let even = shares(250, 250, 250, 250);
    assert_eq!(rt; run.decision(0)?, Some(even));
    assert_eq!(rt; run.decision(1)?, Some(even));
    Ok(())
}
