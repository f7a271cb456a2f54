#![tactic(auto)]
//! The objects of the server, each kind in order of creation, and the edits that made them.

mod base;
mod book;
mod journal;
mod judging;

pub use adr_shared::SharedList;
pub use adr_store::Store;
pub use base::Base;
pub use book::{Book, judge, judged};
pub use journal::{Batch, Journal};
pub use judging::Judged;
