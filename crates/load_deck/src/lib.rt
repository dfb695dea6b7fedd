//! The text of the load deck, which shows a full ordinary site under load: 16 processors, two discs, twelve banks,
//! sixteen terminals with as many requests as are asked for, a mixed schedule and a stop.
//!
//! Below stands `gd_words`. The layer above reads the text as any deck (`load_text`).
#![tactic(auto)]

mod text;

pub use text::load_text;
