//! The line of an event in the form that is asked for: as text for people, or as an object of JSON (RFC 8259).
//!
//! Below stand `trace_lines` with the line as text and the words of each thing that is told, and `json_lines` with
//! strings of JSON. The layer above uses `put_line`, whose text is `line_in` of `specs/Forms.antt`. `laws` says that a
//! line of JSON is read as the object that it is of.
#![tactic(auto)]

pub mod form;
pub mod laws;
pub mod lines;

pub use form::Form;
pub use laws::{a_line_of_json_is_one_line, a_line_of_json_is_read_as_its_object};
pub use lines::put_line;
