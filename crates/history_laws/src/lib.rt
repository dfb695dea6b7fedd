//! Why no event reads what was sent, but for the last two checkpoints of each process, over packets and over whole
//! messages; and why no run of a schedule over packets does. States that have one present are played in the same way. A
//! present is all but what was sent; of that, it has the last two checkpoints of each process. No code runs here.
//!
//! Below stands `packet_runs`, whose rules say what a run over packets is, with `packet_wires` and `message_wires`.
//! These say what each event makes of a state. The world in code keeps all else that was sent in ghost logs, which no
//! code can read.
#![tactic(auto)]

pub mod guards;
pub mod laws;
pub mod runs;

pub use laws::{
    no_event_over_whole_messages_reads_what_was_sent, no_event_reads_what_was_sent,
    no_run_reads_what_was_sent,
};
pub use runs::{no_count_and_no_close_reads_what_was_sent, no_schedule_reads_what_was_sent};
