//! What the type system of UNO means, as definitions over plain lists and trees, and the laws that hold of them.
#![tactic(auto)]

mod assignable_laws;
mod built_in_laws;
mod circle_laws;
mod flags;
mod function_laws;
mod member_laws;
mod name_laws;
mod type_class;
mod value_laws;
mod way;

pub use assignable_laws::{
    a_type_is_assignable_to_itself, what_is_assignable_is_so_over_two_steps,
    what_is_assignable_passes_the_test,
};
pub use built_in_laws::the_built_in_entities_are_sound;
pub use circle_laws::{what_ends_has_no_circle, without_circles_all_ways_end};
pub use flags::Flags;
pub use function_laws::{
    a_visit_is_that_of_the_bases_and_the_interface_itself,
    an_interface_has_the_functions_of_its_bases, every_interface_stands_on_the_root,
    more_levels_meet_the_same_interfaces, the_first_functions_are_those_of_the_root,
    the_functions_of_the_first_base_come_first, what_is_no_interface_has_no_functions,
};
pub use member_laws::all_members_are_the_bases_and_its_own;
pub use name_laws::types_of_one_name_are_one;
pub use type_class::TypeClass;
pub use value_laws::{
    a_default_fits_its_type, a_default_holds_no_object,
    the_default_of_a_struct_is_that_of_its_members,
    the_default_of_an_exception_is_that_of_its_members, what_fits_passes_the_test,
};
pub use way::Way;
