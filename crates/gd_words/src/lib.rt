//! The words of the machine and the small values that everything above passes on: 16-bit words with wrapped
//! arithmetic, lists of at most 16 words, names, requests and replies, sectors, decimal numbers, and `List` and
//! `Boxed`, the list and the box that contracts see as plain values. And the limits, as constants.
//!
//! Below stand `std`, `arrayvec` for short lists and `itoa` for digits. The crates above use the clauses of wrapped
//! arithmetic (`wrap`, `quotient`), of `Name::read` and `Ident::read`, and that a `List` is its items and a `Boxed` its
//! value.
#![tactic(auto)]

pub mod arithmetic;
pub mod boxed;
pub mod decimal;
pub mod device;
pub mod ident;
pub mod limits;
pub mod list;
pub mod members;
pub mod memory;
pub mod message;
pub mod name;
mod spelling;
pub mod words;

pub use arithmetic::{div_trunc, wrap_add, wrap_mul, wrap_neg, wrap_sub};
pub use boxed::Boxed;
pub use decimal::{Decimal, decimal_of};
pub use device::{DeviceCall, Sector};
pub use ident::Ident;
pub use list::List;
pub use members::is_among_tells_members;
pub use memory::NoMemory;
pub use message::{Reply, Request};
pub use name::Name;
pub use words::Words;
