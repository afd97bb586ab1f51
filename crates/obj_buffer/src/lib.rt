//! The octets of an object's symbols (RFC 5740 section 4.2.1). Source symbols are cut from the object, and parity symbols come from the codes of
//! its blocks (RFC 5510 section 8).
//!
//! A [`CodeTable`] keeps codes that were made. [`Codes`] are those of one plan's blocks. [`symbol_of`] appends a symbol of an object that
//! lies in two pieces, as in a ring. `tx_window` keeps the table, and `tx_object` calls the others. An [`ObjectBuf`] keeps one object with
//! its codes, and calls [`symbol_of`] for each symbol; only a bench uses it.
#![tactic(auto)]

mod buffer;
mod codes;
mod symbol;
mod table;

pub use crate::buffer::ObjectBuf;
pub use crate::codes::Codes;
pub use crate::symbol::symbol_of;
pub use crate::table::CodeTable;
