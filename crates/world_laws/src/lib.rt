//! What follows of two joined ends: each function has an empty body, and its clauses are a law.
#![tactic(auto)]

mod balance_laws;
mod call_laws;
mod doing_laws;
mod going_laws;
mod history_laws;
mod joined_history_laws;
mod keeping_laws;
mod kept_laws;
mod merging_laws;
mod offer_laws;
mod playing_laws;
mod proxy_laws;
mod reading_laws;
mod ready_laws;
mod refusal_laws;
mod root_laws;
mod run_laws;
mod serving_laws;
mod standing_laws;
mod stuck_laws;
mod thread_laws;
mod world_laws;

pub use balance_laws::{balance_follows_of_two_ends, standing_follows_of_one_end};
pub use call_laws::{
    a_reply_is_the_answer_of_the_call_on_top,
    a_reply_that_comes_is_handed_to_the_frame_below_its_call,
};
pub use doing_laws::{
    each_move_of_a_pair_can_be_done, the_roots_of_a_pair_give_what_they_may,
    the_runs_of_a_pair_are_those_of_its_plans, what_a_pair_keeps,
};
pub use going_laws::{
    an_entry_of_an_end_goes_on, nothing_is_on_its_way_at_the_beginning,
    what_a_root_enters_can_be_carried, what_is_cut_off_a_piece_is_next,
};
pub use history_laws::{
    every_history_is_a_run_of_messages, no_bridge_is_ever_broken,
    the_first_message_in_flight_arrives_with_its_block, the_first_message_in_flight_may_arrive,
    what_was_said_can_be_carried,
};
pub use joined_history_laws::{
    entries_that_both_ends_replay_are_a_history, two_ends_with_the_bytes_between_are_one_history,
};
pub use keeping_laws::{
    each_outcome_is_its_calls_own, no_piece_on_its_way_breaks_a_bridge,
    while_both_stand_what_is_held_has_its_object,
};
pub use kept_laws::what_two_joined_ends_keep;
pub use merging_laws::{
    a_mark_finds_its_entry, an_entry_with_the_next_mark_stands_behind_all,
    entries_are_put_together_by_their_places, marks_tell_the_history,
    there_are_as_many_as_both_have,
};
pub use offer_laws::what_is_offered_may_arrive;
pub use playing_laws::{
    a_pair_depends_on_its_settings_seed_and_cut, a_pair_ends_with_its_runs_finished,
    a_pair_is_a_history_of_its_world, each_outcome_in_a_pair_is_that_of_the_call_of_its_statement,
    the_runs_of_a_pair_have_the_lines_of_its_history, the_runs_of_a_pair_stand_for_its_history,
};
pub use proxy_laws::an_identity_and_interface_has_at_most_one_proxy;
pub use reading_laws::{
    a_message_arrives_with_the_rest_of_its_block, a_piece_is_read_as_it_was_said,
};
pub use ready_laws::ends_whose_texts_keep_the_rules_are_ready;
pub use refusal_laws::{
    no_message_is_refused, what_arrives_names_what_was_sent_out, what_can_be_carried_may_arrive,
    what_comes_home_is_itself,
};
pub use root_laws::each_answer_of_a_root_is_its_calls_own;
pub use run_laws::{
    a_history_of_bytes_is_a_run_of_messages, an_end_is_read_as_it_last_stood,
    each_end_replays_its_entries,
};
pub use serving_laws::each_method_that_serves_began_with_the_request_of_its_call;
pub use standing_laws::{runs_stand_behind_each_entry, the_runs_of_a_plan_stand_at_the_beginning};
pub use stuck_laws::no_world_is_stuck;
pub use thread_laws::{
    a_reply_that_arrives_is_awaited, a_request_that_arrives_finds_its_thread_waiting,
    a_thread_of_neither_end_is_nowhere, interlock_holds_in_every_run,
};
pub use world_laws::{
    a_held_pair_has_a_stub, a_name_of_neither_end_is_never_brought, a_release_that_arrives_is_owed,
    an_own_object_that_arrives_has_a_stub, balance_holds_in_every_run, no_proxys_object_is_gone,
    standing_holds_in_every_run, the_object_of_a_held_pair_lives,
    the_object_of_a_held_pair_supports_it,
};
