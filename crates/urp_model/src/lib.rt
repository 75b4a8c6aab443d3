//! What the bytes of the URP mean, as definitions over lists, and the laws that hold of them.
#![tactic(auto)]

mod block_laws;
mod fault;
mod known;
mod naming_laws;
mod reason;
mod sending_laws;
mod slot_laws;
mod spelling_laws;

pub use block_laws::{one_block_stands_at_the_front, whole_blocks_are_what_blocks_begin};
pub use fault::Fault;
pub use known::Known;
pub use naming_laws::a_value_names_what_arrives;
pub use reason::Reason;
pub use sending_laws::{
    a_spelling_is_no_longer_than_the_weight, a_thread_is_spelled, a_type_is_spelled,
    a_value_is_read_again, a_value_is_spelled, an_object_is_spelled, tables_answer_at_first,
};
pub use slot_laws::{
    a_name_takes_the_slot_of_all_uses, a_table_means_what_was_announced,
    tables_mean_what_a_value_announces, the_bytes_of_a_value_make_one_list_of_announcements,
    the_names_kept_are_those_held,
};
pub use spelling_laws::{
    a_class_and_a_name_are_one_type, a_front_of_a_spelling_is_short,
    no_spelling_begins_with_what_is_broken, objects_are_read_as_they_are_spelled,
    one_value_stands_at_the_front, threads_are_read_as_they_are_spelled,
    types_are_read_as_they_are_spelled, values_are_read_as_they_are_spelled, what_is_spelled_fits,
    what_is_spelled_is_spellable,
};
