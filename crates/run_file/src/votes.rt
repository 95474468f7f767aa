ghost use Rattle.std.specs.Prelude.{◌≡◌, ◌≤◌, ◌<◌, [], ◌∷◌, map, Some, MatchOption, IfOk, IfErr, OnOk};
ghost use Rattle.models.specs.Laws.{Meaning};
ghost use Rattle.protocol.specs.Machine.{Idle, step};
ghost use Rattle.run.specs.Turns.{size_of};
ghost use Rattle.run.specs.Runs.{setting, state, Keeps};
ghost use Rattle.run_file.specs.Votes.{forges, lines_of, round_of};
ghost use Rattle.run_file.specs.Promises.{StaysPast};
ghost use Rattle.run_file.specs.InCode.{stop_at, HasRows, lines_in, Checked, AreLater, IsNext, Leaves, opens, rounds_in, calls_in, cells_for, RunsThrough, RunsToEnd};

use crate::headers::Header;
use crate::lines::Line;
use crate::numbers::number_at;
use crate::parts::Parts;
use crate::pieces::Pieces;
use crate::stops::Stop;
use models::{MOST_CONTROLLERS, Model, Set};
use run::{Opening, Run};
use values::{Kind, Refusal};

// What a call of a round answers, with the round where it is refused.
fn in_round(answer: Result<(), Refusal>, round: u16) -> Result<(), Stop>
    ensures { result ≡ stop_at (Some round) answer }
{
    answer.map_err(|refusal| Stop {
        refusal,
        round: Some(round),
    })
}

// The first line and those after it, if it is of this round. All lines were checked, so none is refused here.
fn next_of_round<'f, K: Kind>(
    lines: Pieces<'f>,
    rounds: u16,
    round: u16,
) -> Option<(Line<K>, Pieces<'f>)>
    requires wide { 6 ≤ lines.width }
    requires checked { Checked K.rules rounds round (lines_in lines) }
    ensures { MatchOption result (AreLater K.rules rounds round lines.entry) (λ r. IsNext K.rules K.plain rounds round lines.entry r.0 r.1) }
{
    let (bytes, rest) = lines.split_first()?;
    match Line::<K>::read(bytes, rounds, round) {
        Ok(line) if line.round == round => Some((line, rest)),
        Ok(_) => None,
        Err(_) => unreachable!(),
    }
}

// Forges the lines of a round, which stand before those of later rounds, and returns the lines of later rounds.
fn forge_lines<'f, K: Kind>(
    run: &mut Run<K>,
    rounds: u16,
    round: u16,
    lines: Pieces<'f>,
) -> Result<Pieces<'f>, Stop>
    requires wide { 6 ≤ lines.width }
    requires checked { Checked K.rules rounds round (lines_in lines) }
    ensures forged { (m : Meaning) → RunsThrough m (map forges (lines_of round (lines_in lines.entry))) run.old run.new result }
    ensures left { IfOk result (λ rest. Leaves K.rules rounds round lines.entry rest) }
    ensures keeps { Keeps run.old run.new }
{
    let mut rest = lines;
    while let Some((line, after)) = next_of_round::<K>(rest, rounds, round) {
        in_round(run.forge(line.place, line.cell), round)?;
        rest = after;
    }
    Ok(rest)
}

// Seats a round's set, forges the round's lines and closes the round; returns the lines of later rounds.
fn perform_round<'f, K: Kind, M: Model>(
    run: &mut Run<K>,
    model: &M,
    rounds: u16,
    round: u16,
    set: Set,
    lines: Pieces<'f>,
) -> Result<Pieces<'f>, Stop>
    requires wide { 6 ≤ lines.width }
    requires checked { Checked K.rules rounds round (lines_in lines) }
    ensures performed { RunsThrough (M.meaning model.now) (round_of round set.0 (lines_in lines.entry)) run.old run.new result }
    ensures left { IfOk result (λ rest. Leaves K.rules rounds round lines.entry rest) }
    ensures keeps { Keeps run.old run.new }
{
    in_round(run.seat(model, set), round)?;
    let rest = forge_lines(run, rounds, round, lines)?;
    in_round(run.close(), round)?;
    Ok(rest)
}

// Performs the rounds, one for each set.
fn perform_rounds<K: Kind, M: Model>(
    run: &mut Run<K>,
    model: &M,
    rounds: u16,
    sets: Pieces,
    lines: Pieces,
) -> Result<(), Stop>
    requires rounds { sets.count ≡ rounds }
    requires narrow { sets.width ≡ 2 }
    requires wide { 6 ≤ lines.width }
    requires checked { Checked K.rules rounds 0 (lines_in lines) }
    ensures performed { RunsToEnd (M.meaning model.now) (state run.old) (rounds_in sets.entry lines.entry) run.old run.new result }
    ensures keeps { Keeps run.old run.new }
{
    let mut lines = lines;
    let mut sets = sets;
    let mut round = 0;
    while let Some((set, after)) = sets.split_first() {
        lines = perform_round(run, model, rounds, round, Set(number_at(set, 0)), lines)?;
        sets = after;
        round += 1;
    }
    Ok(())
}

// Opens the block of a run file. At most 16 proposals are handed over: a larger block is refused for its size, whatever
// it proposes.
fn open_block<K: Kind, M: Model>(
    run: &mut Run<K>,
    model: &M,
    header: &Header,
    parts: &Parts,
    proposals: &[K::Row; MOST_CONTROLLERS],
) -> Result<(), Stop>
    requires idle { state run.now ≡ Idle }
    requires count { parts.now.proposals.count ≡ header.now.n }
    requires rows { HasRows K.rules K.plain parts.now.proposals proposals.now }
    ensures opened { RunsThrough (M.meaning model.now) (opens header.now parts.now ∷ []) run.old run.new result }
    ensures left { state run.new ≡ (step (setting run.old) (M.meaning model.now) Idle (opens header.now parts.now).call).0 }
    ensures size { OnOk result ((size_of run.new.turn ≡ header.now.n) × (0 < header.now.n) × (header.now.n ≤ MOST_CONTROLLERS)) }
    ensures unaltered { IfErr result (λ _. run.new.cells.now ≡ run.old.cells.now) }
    ensures keeps { Keeps run.old run.new }
{
    let n = usize::from(header.n);
    let opening = Opening {
        n,
        t: header.t.into(),
        proposals: &proposals[..n.min(proposals.len())],
        initial: parts.initial,
    };
    Ok(run.open(model, opening)?)
}

/// Opens a file's block and performs its rounds.
pub(crate) fn perform<K: Kind, M: Model>(
    run: &mut Run<K>,
    model: &M,
    header: &Header,
    parts: &Parts,
    proposals: &[K::Row; MOST_CONTROLLERS],
) -> Result<(), Stop>
    requires idle { state run.now ≡ Idle }
    requires count { parts.now.proposals.count ≡ header.now.n }
    requires rows { HasRows K.rules K.plain parts.now.proposals proposals.now }
    requires sets { (parts.now.sets.width ≡ 2) × (parts.now.sets.count ≡ header.now.rounds) }
    requires lines { (6 ≤ parts.now.lines.width) × Checked K.rules header.now.rounds 0 (lines_in parts.now.lines) }
    ensures performed { RunsToEnd (M.meaning model.now) Idle (calls_in header.now parts.now) run.old run.new result }
    ensures used { StaysPast (cells_for (setting run.old) (M.meaning model.now) header.now parts.now) run.old.cells.now run.new.cells.now }
    ensures size { OnOk result (header.now.n ≤ MOST_CONTROLLERS) }
    ensures keeps { Keeps run.old run.new }
{
    open_block(run, model, header, parts, proposals)?;
    perform_rounds(run, model, header.rounds, parts.sets, parts.lines)
}
