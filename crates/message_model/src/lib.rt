//! What the messages of the URP mean, as definitions over lists, and the laws that hold of them.
#![tactic(auto)]

mod announcement_laws;
mod naming_laws;
mod reading_laws;
mod refusal_laws;
mod said_laws;
mod sending_laws;
mod stream_laws;
mod weight_laws;

pub use announcement_laws::{
    tables_mean_what_messages_announce, the_bytes_of_messages_make_one_list_of_announcements,
};
pub use naming_laws::{a_message_names_what_arrives, what_may_be_said_fits};
pub use reading_laws::{
    a_front_of_a_message_is_short, a_message_that_is_read_fits,
    a_message_that_is_read_is_spellable, messages_are_read_as_they_are_spelled,
    no_message_begins_with_what_is_broken, one_message_stands_at_the_front,
    the_messages_of_a_body_fit,
};
pub use refusal_laws::{
    bodies_are_read_as_they_are_spelled, each_message_stands_behind_those_before_it,
    later_bytes_mend_no_fault, more_bytes_in_a_body_mend_no_fault,
    streams_are_read_as_they_are_spelled, what_was_said_stands_as_blocks,
};
pub use said_laws::{
    a_prefix_of_what_was_said_stays_one, what_is_held_is_what_all_uses_leave,
    what_is_said_grows_by_blocks,
};
pub use sending_laws::{
    a_message_is_no_longer_than_its_weight, a_message_is_read_again, a_message_is_spelled,
};
pub use stream_laws::{
    a_stream_goes_on_behind_what_it_spells, a_stream_spells_one_list_of_messages,
    what_was_said_is_read,
};
pub use weight_laws::{
    a_message_is_as_long_as_it_weighs_less_what_is_saved, what_is_saved_goes_by_all_uses,
};
