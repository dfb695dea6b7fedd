//! Tests of the checkpoint discipline on program texts: the least paths of known programs that break it, what single
//! statements make due, the depth of calls, where the edges of a known graph lead, which programs are too deep or too
//! large, the order of reasons, and the lists and depths that mend known programs.
//!
//! Below stand `path_semantics`, `flow_paths`, `discipline` and `advice_search`, which are tested, and
//! `worked_programs`, which reads the texts; nothing stands above.
#![tactic(auto)]

#[cfg(test)]
mod advised;
#[cfg(test)]
mod bounds;
#[cfg(test)]
mod dues;
#[cfg(test)]
mod edges;
#[cfg(test)]
mod paths;
#[cfg(test)]
mod verdicts;
