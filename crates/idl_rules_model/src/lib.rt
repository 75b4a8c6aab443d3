//! The rules of UNOIDL as conditions over all declarations: where each of them is broken, and the verdict of all.
#![tactic(auto)]

mod laws;

pub use laws::{
    a_constant_comes_back_exactly_where_it_leads_to_itself,
    a_rule_is_broken_nowhere_exactly_where_all_keep_it, the_rules_have_a_verdict,
    the_rules_have_one_verdict, types_are_broken_nowhere_exactly_where_all_keep_them,
    what_breaks_no_rule_keeps_the_rules,
};
