//! What a program text declares: its globals, the headings of its procedures with their locals, and the files that its
//! OPENs make of globals; and the faults of globals, headings and locals. Those of an OPEN are judged with the other
//! calls, above.
//!
//! Below stands `tal_names` for the tables of names and for the least fault. The layer above, which judges bodies, uses
//! `declared_by` for the globals and `headed_by` for the headings, which keep the least fault and give what was
//! declared, `judge_locals` for the faults of one procedure's locals, and `statement_files` and `row_files` for the
//! files.
#![tactic(auto)]

pub mod files;
pub mod globals;
pub mod heading;
pub mod table;

pub use table::{Declared, Extent, Files, Headed};
