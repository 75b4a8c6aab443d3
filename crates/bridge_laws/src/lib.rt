//! What follows of an end of a bridge from its definition, over every history: each function has an empty body, and its clauses are a law.
#![tactic(auto)]

mod answer_laws;
mod answering_laws;
mod call_laws;
mod coming_laws;
mod covering_laws;
mod cutting_laws;
mod debt_laws;
mod ending_laws;
mod fitting_laws;
mod lines_laws;
mod living_laws;
mod number_laws;
mod order_laws;
mod order_stop_laws;
mod paid_laws;
mod plan_laws;
mod premise_laws;
mod raising_laws;
mod room_laws;
mod root_end_laws;
mod root_giving_laws;
mod root_laws;
mod rooted_laws;
mod saying_laws;
mod speaking_laws;
mod spellable_giving_laws;
mod spellable_holding_laws;
mod spelling_laws;
mod stack_laws;
mod standing_laws;
mod step_laws;
mod working_laws;

pub use answer_laws::each_answer_of_a_root_fits_what_it_asked_for;
pub use answering_laws::{
    a_piece_brings_its_messages_one_after_the_other, a_reply_answers_the_innermost_call,
    a_root_gets_the_answer_under_its_own_methods, a_statement_answers_what_its_frame_ends_with,
    each_answer_of_a_root_was_given_by_one_entry, no_other_entry_replies,
};
pub use call_laws::an_outcome_is_that_of_the_call_of_its_statement;
pub use coming_laws::what_came_spells_what_was_got;
pub use covering_laws::what_frames_and_objects_have_is_held;
pub use cutting_laws::{a_piece_may_be_fed_in_two_parts, how_bytes_are_cut_does_not_matter};
pub use debt_laws::{
    a_stub_is_owed, a_stub_is_there_where_something_is_owed, what_was_sent_is_released_or_owed,
};
pub use ending_laws::{
    a_bridge_has_ended_with_its_first_cause, a_disposed_outcome_has_its_end,
    the_first_cause_stays_but_for_want_of_memory,
};
pub use fitting_laws::{
    what_is_held_is_supported, what_objects_have_fits, what_was_sent_out_is_supported,
};
pub use lines_laws::a_run_has_the_lines_of_its_history;
pub use living_laws::{constants_of_a_plan_refer_to_nothing, what_is_held_or_was_sent_out_lives};
pub use number_laws::{
    an_identity_names_one_object, an_object_number_is_never_given_twice, numbers_tell_objects_apart,
};
pub use order_laws::what_is_written_depends_on_what_is_read_alone;
pub use order_stop_laws::the_order_stops_only_where_nothing_can_be_done;
pub use paid_laws::what_came_is_held_or_released;
pub use plan_laws::roots_of_a_plan_that_keeps_the_rules_are_typed;
pub use premise_laws::{
    a_plan_that_keeps_the_rules_is_writable, a_registry_that_keeps_the_rules_has_small_items,
    a_registry_that_keeps_the_rules_tells_names_apart,
};
pub use raising_laws::an_exception_that_a_root_gets_is_one_that_its_call_may_raise;
pub use room_laws::{
    a_free_entry_has_its_room, an_entry_needs_no_more_than_it_brings,
    an_opening_needs_room_for_its_end_and_its_objects,
};
pub use root_end_laws::behind_the_end_a_root_begins_nothing;
pub use root_giving_laws::what_a_root_that_follows_its_plan_gives_may_be_given;
pub use root_laws::{
    constants_of_roots_refer_to_nothing, each_entry_of_a_roots_move_may_stand,
    what_a_root_has_is_held, what_a_root_has_is_told_by_its_identity,
};
pub use rooted_laws::{a_root_waits_where_its_thread_has_a_stack, a_thread_of_this_end_is_a_roots};
pub use saying_laws::{
    what_an_entry_says_may_be_said, what_waits_may_be_said, what_was_said_is_rightly_said,
    what_was_said_may_be_said,
};
pub use speaking_laws::{
    what_is_drained_and_waits_is_what_was_said, what_is_drained_is_a_front_of_what_was_said,
};
pub use spellable_giving_laws::{
    what_a_root_gives_is_spellable, what_a_root_gives_is_spellable_where_what_was_got_is,
    what_a_run_has_is_spellable,
};
pub use spelling_laws::{
    what_an_entry_says_is_spellable, what_arrives_is_spellable,
    what_is_said_is_spellable_where_what_was_got_is, what_waits_is_spellable,
    what_was_said_is_spellable,
};
pub use stack_laws::a_stack_is_a_roots_or_the_peers;
pub use standing_laws::what_was_used_is_held_or_released;
pub use step_laws::{
    an_entry_keeps_the_rest, entries_are_counted, messages_come_by_bytes_alone,
    what_has_ended_stays_so,
};
pub use working_laws::{
    an_end_begins_in_order, the_order_rests_once_behind_all_bytes,
    what_is_done_first_keeps_the_order, what_is_fed_keeps_the_order,
    what_is_written_in_order_is_the_answer,
};
