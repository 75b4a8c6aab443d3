//! What is written of two joined ends that ran, as definitions over plain lists and trees: the report of each, and the plans and the summary of a drill.
#![tactic(auto)]

mod ending_laws;

pub use ending_laws::{
    a_drill_has_one_summary, a_pair_at_a_limit_kept_its_promises, a_pair_ends_well_or_at_a_limit,
    a_pair_has_one_report, a_pair_within_its_limits_ends_well,
};
