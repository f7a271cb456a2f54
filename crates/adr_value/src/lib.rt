//! Exact decimals, the shield that keeps numbers exact through a reader of JSON, payload types and their values, and
//! texts and lists whose contracts forget the memory behind them; and refusals, which every layer shares.
#![tactic(auto)]

mod datum;
mod decimal;
/// How much of each kind a book, a journal and a board hold at most.
pub mod limits;
mod list;
mod parts;
mod payload;
mod print;
mod shielding;
mod spelling;
mod text;

pub use adr_refusal::{Faults, Refusal, TryClone, both, fault_laws, refusal_laws};
pub use datum::Datum;
pub use decimal::Decimal;
pub use list::BoundedVec;
pub use payload::{PayloadType, PrivateName, Shape, payload_laws};
pub use print::decimal_laws;
pub use shielding::{shield, shield_laws};
pub use text::{Name, Text};
