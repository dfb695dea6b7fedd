use pair_machine::PairMachine;
use schedule_loop::Ending;

/// A run that was made: the machine as the run left it, closed where it is idle; how many events were asked for; and
/// how it ended.
#[derive(Drop)]
pub struct Ran {
    pub machine: PairMachine,
    pub asked: u64,
    pub ending: Ending,
}
