//! The rules of the vote as definitions, and what is proved of them: that under the counts of three models the rounds
//! are published ones, that the worked votes come out as written, and that decisions obey the law of transcripts.
#![tactic(auto)]

mod stages;
mod theorems;

pub use stages::{MOST_ROUNDS, Stage, coordinator};
pub use theorems::{
    decisions_agree, rounds_under_any_counts, stamped_aware_runs_algorithm_2,
    stamped_carried_runs_algorithm_3, the_law_is_not_empty, the_machine_obeys_its_laws,
    unaware_runs_algorithm_1, worked_votes_come_out,
};
