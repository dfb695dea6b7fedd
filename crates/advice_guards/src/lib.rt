//! Guards of advice: what is due at the CHECKPOINTs of small programs, how many replies have to be kept, which answer
//! is right, and what is mended by nothing, each at telling points. A wrong definition is refused here.
//!
//! Below stands `advice`, whose definitions are guarded; nothing stands above.
#![tactic(auto)]

pub mod answers;
pub mod choices;
pub mod depths;
pub mod lists;
