//! Guards of the spelling of program texts: what telling texts are cut into, and the faults at which they are cut off;
//! and of loops, whose tokens the grammar has and the rules judge. A wrong definition is refused here.
//!
//! Below stand `tal_tokens`, `tal_syntax` and `tal_rules`, whose definitions are guarded; nothing stands above.
#![tactic(auto)]

pub mod faults;
pub mod loops;
pub mod tokens;
