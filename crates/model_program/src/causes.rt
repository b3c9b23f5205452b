//! Why the program answers as it does, cause by cause: of its words and files, of a graph, and of one declaration. Why a script is refused is told by `model_scripts`.

mod answers;
mod declarations;
mod deltas;
mod dots;
mod exports;
mod merges;
mod refusals;
mod statuses;
mod threads;
mod words;

pub use answers::{causes_of_answers, causes_of_checks};
pub use declarations::{causes_of_declarations, causes_of_next_declarations};
pub use deltas::causes_of_deltas;
pub use dots::{causes_of_dots, dots_ends_with_few_statuses};
pub use exports::causes_of_exports;
pub use merges::causes_of_merges;
pub use refusals::graphs_are_refused_at_their_first_refusal;
pub use statuses::{
    answers_come_exactly_where_they_have_a_cause, statuses_tell_the_answer,
    told_files_decide_an_answer,
};
pub use threads::threaded_answers_come_exactly_where_they_have_a_cause;
pub use words::words_have_the_listed_forms;
