use models::{Set, Standard};
use run::Answer::{Decided, Done};
use script::{
    Expected, Figure, Flaw, House, Script, ScriptError, Statement, ValueKind, Wrong, read,
};
use std::process::Abort;
use transcript::{Decisions, Outcome, play_script, tell};
use values::{Refusal, Shares};

// A vote of one controller on sheets, with a call that is refused and one that comes too early.
const SHEETS: &str = "# one controller
sheet carried\tstamped  stamped
open 01 0 {} 400/300/200/100
decision 0
seat {}\r
close
seat {1}
seat {}
close
seat {}
close
decision 0   # the end
";

const SHEETS_TOLD: &str = "sheet carried stamped stamped
cells 4688
open 1 0 {} 400/300/200/100  # accepted
decision 0  # none
# round 0: proposing, phase 0, coordinator 0, seated {}
seat {}  # accepted
close  # accepted
seat {1}  # refused 6: a set names a controller that the block lacks, or more than t controllers
# round 1: collecting, phase 0, coordinator 0, seated {}
seat {}  # accepted
close  # accepted
# round 2: deciding, phase 0, coordinator 0, seated {}
seat {}  # accepted
close  # accepted
decision 0  # 400/300/200/100
# rounds closed: 3
# clean coordinators: {0}
# filled decisions: all 400/300/200/100
";

fn script_of(rt: &(impl Abort + AllocGlobal), text: &str) -> Script {
    match read(rt.alloc(), text.as_bytes()) {
        Ok(script) => script,
        Err(_) => panic!(rt; "the script is not read"),
    }
}

#[test]
fn a_script_says_its_calls(rt: HostRuntime) {
    let script = script_of(&rt, SHEETS);
    let house = House {
        kind: ValueKind::Sheet,
        base: Standard::Carried,
        stamps: 2,
    };
    assert_eq!(rt; script.house, house);
    assert_eq!(rt;
        (script.cells, script.cells_line, script.end),
        (4688, 0, 13)
    );
    assert_eq!(rt; script.lines.len(), 10);
    assert_eq!(rt; script.lines[0].number, 3);
    let proposed = Figure::Sheet(Shares {
        zone0: 400,
        zone1: 300,
        zone2: 200,
        zone3: 100,
    });
    match &script.lines[0].statement {
        Statement::Open {
            n,
            t,
            proposals,
            ..
        } => {
            assert_eq!(rt; (*n, *t), (1, 0));
            assert!(rt; proposals.as_slice() == [proposed].as_slice());
        }
        _ => panic!(rt; "no open"),
    }
}

#[test]
fn a_script_is_played_and_told(rt: HostRuntime) {
    let script = script_of(&rt, SHEETS);
    let replay = play_script(rt.alloc(), &script).expect(&rt, "memory");
    let decided = Figure::Sheet(Shares {
        zone0: 400,
        zone1: 300,
        zone2: 200,
        zone3: 100,
    });
    assert_eq!(rt; replay.answers.len(), 10);
    assert_eq!(rt; replay.answers[0], Ok(Done));
    assert_eq!(rt; replay.answers[4], Err(Refusal::SetMembers));
    assert_eq!(rt; replay.answers[9], Ok(Decided(Some(decided))));
    let outcome = Outcome {
        closed: 3,
        clean: Set(1),
        decisions: Decisions::Equal(decided),
    };
    assert_eq!(rt; replay.outcome, outcome);
    let told = tell(rt.alloc(), &script, &replay).expect(&rt, "memory");
    assert_eq!(rt; told.as_str(), SHEETS_TOLD);
}

#[test]
fn all_faulty_lines_are_told(rt: HostRuntime) {
    let text = "setpoint fixed\ncells 4 4\nseat {16}\nforge 0 0 0 950\nclose\nopen 1 0 {} 500 x\n";
    let expected = |line, what| Flaw {
        line,
        wrong: Wrong::Expected(what),
    };
    match read(rt.alloc(), text.as_bytes()) {
        Err(ScriptError::Flawed(flaws)) => {
            assert_eq!(rt; flaws.all.len(), 4);
            assert_eq!(rt; flaws.all[0], expected(2, Expected::End));
            assert_eq!(rt; flaws.all[1], expected(3, Expected::Set));
            let refused = Flaw {
                line: 4,
                wrong: Wrong::Refused(Refusal::Value),
            };
            assert_eq!(rt; flaws.all[2], refused);
            assert_eq!(rt; flaws.all[3], expected(6, Expected::Value));
        }
        _ => panic!(rt; "no line has a flaw"),
    }
}
