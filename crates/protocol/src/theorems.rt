//! What is proved of the rules. Calling these functions does nothing; their promises are the theorems.
//!
//! The last set is the set of the round before, or in round 0 the initial set.
ghost use Rattle.models.specs.declared.standards.Standard.TheVariants.{Aware, Unaware, Carried};
ghost use Rattle.models.specs.Stamps.{stamped};
ghost use Rattle.models.specs.Standards.{standard};
ghost use Rattle.protocol.specs.AnyCounts.{PublishedRounds, process1, process2};
ghost use Rattle.protocol.specs.Publications.{Algorithm1, Algorithm2, Algorithm3, CuredAware, CuredUnaware};
ghost use Rattle.protocol.specs.Compared.{
  BlocksAreSized,
  RunsAfterCalls,
  RunsAlgorithm1,
  RunsAlgorithm2,
  RunsAlgorithm3,
  RunsAnyRound,
  SendsAfterCalls,
  SendsInAlgorithm1,
  SendsInAlgorithm2,
  SendsInAlgorithm3,
};
ghost use Rattle.protocol.specs.Example.{Example};
ghost use Rattle.protocol.specs.MachineLaws.{RefusedChangesNothing, RoundsAreOfTheirCalls, SeatedAreEmptied};
ghost use Rattle.protocol.specs.Transcripts.{Agreement};
ghost use Rattle.protocol.specs.Votes.{WorkedVotes};
ghost use Rattle.protocol.specs.FurtherVotes.{FurtherVotes};

use models::{LawfulModel, Standard};

/// Whatever the counts b, e and l of a block, if n is above their sum its rounds are of one form under them, for every
/// unseated controller.
///
/// Algorithm 1 of Nguyen, Bonnet, Défago and Potop-Butucaru (IS-RR-2014-004) is that form under the counts 2t, t and
/// 2t; Algorithms 2 and 3 of Pan and Potop-Butucaru (LIPIcs.OPODIS.2025.7) are it under 2t, 0 and t, and t, 0 and t.
pub fn rounds_under_any_counts()
    ensures rounds { RunsAnyRound }
    ensures published { PublishedRounds }
{}

/// Under the counts of unaware, rounds are those of Algorithm 1 of IS-RR-2014-004, for every unseated controller.
///
/// Where unaware is named at seat too, an unseated controller of the last set sends as one that is cured and not aware
/// of it, and any other unseated controller as a correct one. So it is after any calls that all name the model.
pub fn unaware_runs_algorithm_1()
    ensures rounds { RunsAlgorithm1 }
    ensures blocks { BlocksAreSized (standard Unaware) }
    ensures senders { SendsInAlgorithm1 }
    ensures after_calls { RunsAfterCalls (standard Unaware) process1 Algorithm1 CuredUnaware }
{}

/// Under the counts of stamped aware, rounds are those of Algorithm 2 of LIPIcs.OPODIS.2025.7, for every unseated
/// controller.
///
/// Where stamped aware is named at seat too, an unseated controller of the last set sends as one that is cured and
/// aware of it, and any other unseated controller as a correct one. So it is after any calls that all name the model.
pub fn stamped_aware_runs_algorithm_2()
    ensures rounds { RunsAlgorithm2 }
    ensures blocks { BlocksAreSized (stamped (standard Aware)) }
    ensures senders { SendsInAlgorithm2 }
    ensures after_calls { RunsAfterCalls (stamped (standard Aware)) process2 Algorithm2 CuredAware }
{}

/// Under the counts of stamped carried, rounds are those of Algorithm 3 of LIPIcs.OPODIS.2025.7, for every unseated
/// controller.
///
/// Where stamped carried is named at seat too, an unseated controller of the last set sends what its fault liked, but
/// the same to all, and any other unseated controller sends as a correct one. So it is after any calls that all name
/// the model; and then whoever is not in the last set sends as a correct one even if it is seated.
pub fn stamped_carried_runs_algorithm_3()
    ensures rounds { RunsAlgorithm3 }
    ensures blocks { BlocksAreSized (stamped (standard Carried)) }
    ensures senders { SendsInAlgorithm3 }
    ensures after_calls { RunsAfterCalls (stamped (standard Carried)) process2 Algorithm3 CuredUnaware }
    ensures newly_seated { SendsAfterCalls (stamped (standard Carried)) }
{}

/// Three laws of the machine: a refused call leaves the state as it was; a close leaves whoever is seated with all
/// cells empty; and a seated round has the n, t, number and sets that calls under one model gave it.
pub fn the_machine_obeys_its_laws()
    ensures refused { RefusedChangesNothing }
    ensures seated { SeatedAreEmptied }
    ensures rounds { RoundsAreOfTheirCalls }
{}

/// Whatever is called on a new run, with one lawful model named throughout, its decisions obey the law of transcripts.
///
/// If some controller is unseated in the last two rounds of the phase that it coordinates, all filled decisions are
/// equal, and once round 3n - 1 is closed every decision answered is filled. Whether there is one or not, decisions
/// before that close are empty; and if w is what all proposed who are honest in round 0, filled decisions are w.
pub fn decisions_agree()
    ensures { Agreement }
{}

/// The votes worked by hand come out as written; so do further ones, of each refusal in its order and of a phase.
pub fn worked_votes_come_out()
    ensures votes { WorkedVotes }
    ensures further { FurtherVotes }
{}

/// The law is about something: under carried, which is lawful, one fault wanders through two whole votes of a block of
/// four and tells two receivers different things, with a clean coordinator.
///
/// After the first vote a decision is filled. In the second all who are honest in round 0 propose 500, and it is 500.
pub fn the_law_is_not_empty()
    ensures { Example }
{
    Standard::Carried.lawful();
}
