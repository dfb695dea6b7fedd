use schedule_loop::Ending;
use site_machine::Machine;

/// A run that was made: the machine as the run left it, closed where it is idle; how many events were asked for; and
/// how it ended.
#[derive(Drop)]
pub struct Ran {
    pub machine: Machine,
    pub asked: u64,
    pub ending: Ending,
}
