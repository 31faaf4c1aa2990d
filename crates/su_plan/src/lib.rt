//! What a plan is: a command on paths becomes operations that are all accepted in turn.
#![tactic(auto)]

pub use su_draft::{
    Command, files_are_taken_once, numbers_are_counted_through, numbers_are_least,
    paths_have_one_spelling,
};
