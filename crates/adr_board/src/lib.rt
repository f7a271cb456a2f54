#![tactic(auto)]
//! A desk whose publications many threads read while one thread goes on editing.
//!
//! The history of its publications, attempts and successes, exists in proofs alone. Snapshots that go to readers and
//! tokens that the editor tells carry it, each up to some attempt. As of two of them one begins the other, what a
//! reader was told can be compared with what it sees.

mod board;
mod diary;
mod laws;
mod publisher;
mod rule;
mod run;
mod run_steps;
mod shown;
mod snapshot;

pub use adr_desk::{Desk, Gate, NoGate, Receipt};
pub use adr_model::Published;
pub use board::{Board, Editor, NewBoard, Reader, Told};
pub use diary::{Attempt, Diary, DiaryEntry, Law, Page, Publication};
pub use laws::replay_laws;
pub use publisher::{Prepared, Publisher};
pub use rule::Naming;
pub use run::replay;
pub use run_steps::{Shown, Step};
pub use snapshot::Snapshot;
