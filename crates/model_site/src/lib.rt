//! What a site answers to its words and files: a replica that lives in a file, takes in the states of others and makes its own updates. Definitions and laws; no code but the enums of its answers.
#![tactic(auto)]

mod causes;
mod histories;
mod site_failure;
mod site_refusal;

pub use causes::answers_have_their_causes;
pub use histories::{
    sites_agree_and_lose_nothing, sites_only_grow, updates_stand_where_they_are_counted,
};
pub use site_failure::SiteFailure;
pub use site_refusal::SiteRefusal;
