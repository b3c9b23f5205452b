//! What the program answers to its words and files: definitions and laws, and the causes of each answer; what `load` makes of a seed and a count. No code but the enums of its answers.
#![tactic(auto)]

mod causes;
mod failure;
mod form;
mod loads;
mod refusal;
mod state_why;
mod threaded;

pub use causes::{
    answers_come_exactly_where_they_have_a_cause, causes_of_answers, causes_of_checks,
    causes_of_declarations, causes_of_deltas, causes_of_dots, causes_of_exports, causes_of_merges,
    causes_of_next_declarations, dots_ends_with_few_statuses,
    graphs_are_refused_at_their_first_refusal, statuses_tell_the_answer,
    threaded_answers_come_exactly_where_they_have_a_cause, told_files_decide_an_answer,
    words_have_the_listed_forms,
};
pub use failure::Failure;
pub use form::Form;
pub use loads::a_script_of_four_commands;
pub use refusal::Refusal;
pub use state_why::StateWhy;
pub use threaded::Threaded;
