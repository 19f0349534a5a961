//! Requests as processors send them to one another, in bytes: how they are spelled and read, alone and in a stream.
#![tactic(auto)]

mod decoding;
mod encoding;
mod faults;
mod kinds;
mod laws;
mod lengths;
mod lines;
mod listing;
mod reading;
mod requests;
mod splitter;
mod versions;

pub use decoding::decode;
pub use encoding::encode;
pub use faults::MessageFault;
pub use laws::{
    longest, no_proper_front, one_cut, one_list, one_request, one_spelling, pieces_join,
    proper_has_one,
};
pub use lines::message_line;
pub use listing::{ListFault, Listing, list_messages};
pub use requests::{Body, Request};
pub use splitter::{FeedFault, Splitter};
pub use versions::Version;
