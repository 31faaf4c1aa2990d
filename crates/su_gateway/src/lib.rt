//! What etcd is asked over its JSON gateway, and what it replies.
#![tactic(auto)]

mod replies;
mod requests;
mod targets;

pub use replies::{body_start, found_pairs, is_done, number_in, read_json, read_reply};
pub use requests::{
    compare_text, create_text, grant_text, lead_text, lease_text, page_text, range_text,
    request_bytes,
};
pub use targets::Target;
