use player::ProcessorStop;
use unfailing_judge::Wrong;

/// A stop with which a run breaks, and what goes wrong in it.
#[derive(Drop)]
pub struct StopBreak {
    pub stop: ProcessorStop,
    pub wrong: Wrong,
}

/// A run that breaks, with no stop but those of its schedule or with this one, and what goes wrong in it.
#[derive(Drop)]
pub struct Break {
    pub stop: Option<ProcessorStop>,
    pub wrong: Wrong,
}

/// What came of a search: how many events the run with no stop asks for, before how many of them each processor was
/// stopped in turn, the processors in their order, and the first run that breaks.
#[derive(Drop)]
pub struct Search {
    pub asked: u64,
    pub places: u32,
    pub found: Option<Break>,
}
