use crate::outcome::RunEnd;
use crate::task::Telling;
use gd_words::{List, NoMemory};
use logs::Shared;
use report_judge::{MirrorDrives, PairAdvice, RefusedProgram, Why};
use run_table::Table;
use shown_sectors::SectorWords;
use tal_tree::{DeckFault, Site};

/// What is due once all is decided and nothing is written yet.
#[derive(Drop)]
pub enum Due {
    Usage,
    ReadFault,
    NoMemory(NoMemory),
    /// The bytes aren't a deck.
    DeckRefused(DeckFault),
    /// A program isn't accepted.
    ProgramRefused(RefusedSite),
    /// All programs of the site are accepted, and no more was asked.
    Accepted(Site),
    Report(Report),
    /// The runs of a sweep were made, and these are the rows of the processors.
    Swept(Table),
    /// The report is one of its deck, and tells so many acts.
    Verified(u32),
    /// The report is rejected at the line of this number, from 1.
    Rejected { line: u32, why: Why },
    /// The advice for the programs of the site.
    Advised(AdvisedSite),
    /// No lists and depths mend a program.
    Unadvised(RefusedSite),
}

/// A run that was made: its site, the run, what stands on the sectors that were written, how the drives of mirrored
/// discs stand, the processors that have stopped, and what is to be told of it.
#[derive(Drop)]
pub struct Report {
    pub site: Shared<Site>,
    pub run: RunEnd,
    pub sectors: List<SectorWords>,
    pub mirrors: List<MirrorDrives>,
    pub stopped: List<u8>,
    pub tells: Telling,
}

/// A site, and the advice for each pair, in deck order.
#[derive(Drop)]
pub struct AdvisedSite {
    pub site: Site,
    pub pairs: List<PairAdvice>,
}

/// A site, and its first program that is refused.
#[derive(Drop)]
pub struct RefusedSite {
    pub site: Site,
    pub found: RefusedProgram,
}
