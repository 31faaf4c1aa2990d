//! Forks: what honest users can rely on, whatever a server shows them, and what they notice.
//! Definitions, what follows from them, and no code.
#![tactic(auto)]

mod laws;

pub use laws::{
    acts_make_runs, anything_legal_may_be_shown, calls_make_runs, commits_have_one_place,
    commits_make_runs, commits_stand_as_made, digests_tell_or_collide, forks_never_join,
    forks_part_authors, forks_show, heads_tell_lists, lists_only_grow, rollbacks_show, views_agree,
    views_are_legal, views_are_related,
};
