//! How the steps of programs follow the paths of the checkpoint discipline: where a step leads, and what is due after
//! it.
//!
//! Below stand `process_semantics` with the steps of programs and `path_semantics` with the paths and the dues along
//! them. The layer above uses the law `steps_follow_paths`, with `FollowsPath` and `HasRoom` of `specs/Step.antt`: step
//! by step it has a running program on a path. No code runs here.
#![tactic(auto)]

pub mod laws;

pub use laws::steps_follow_paths;
