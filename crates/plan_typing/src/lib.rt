//! Plans that keep the rules are typed, and what typed statements work out fits its type: laws over the definitions of plans.
#![tactic(auto)]

mod effect_laws;
mod frame_laws;
mod plan_laws;
mod value_laws;

pub use effect_laws::{
    a_method_is_typed_for_its_function, statements_stay_typed, types_stand_behind_a_statement,
    types_stand_where_a_method_begins, what_a_method_asks_fits, what_an_effect_asks_fits,
    what_is_evaluated_fits, what_is_to_be_created_is_given_anys, what_no_method_asks_fits,
    what_the_service_manager_asks_fits,
};
pub use frame_laws::{
    a_call_is_of_the_function_it_names, a_frame_begins_typed, a_frame_begins_with_what_fits,
    a_frame_goes_on_typed, a_frame_goes_on_with_what_fits, what_a_frame_asks_fits,
    what_ends_a_method_ends_the_frame,
};
pub use plan_laws::a_plan_that_keeps_the_rules_is_typed;
pub use value_laws::{
    a_method_begins_with_what_fits, what_a_query_takes_fits, what_an_expression_is_fits_its_type,
    what_comes_back_fits, what_leaves_a_frame_is_an_answer,
};
