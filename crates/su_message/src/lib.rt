//! What is asked of a server, and what it replies, in bytes.
#![tactic(auto)]

mod byte_strings;
mod digests;
mod last_numbers;
mod laws;
mod replies;
mod requests;

pub use byte_strings::Bytes;
pub use last_numbers::LastNumbers;
pub use laws::no_message_begins_another;
pub use replies::Reply;
pub use requests::Request;
