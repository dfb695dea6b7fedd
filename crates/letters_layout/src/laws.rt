//! The law of letters and the layout.
ghost use Rattle.tal_tree.specs.declared.site.Site.{Site};
ghost use Rattle.letter_laws.specs.takeover_laws.specs.Fit.{IsFit};
ghost use Rattle.letter_laws.specs.awaited_requests.specs.Seats.{IsLaidOut};
ghost use Rattle.letters_layout.specs.Fitting.{HasFittingChanges, HasFittingLetters, IsSmall};

/// In fewer than 4,294,967,296 events of a fit site within its limits, each letter that is ever sent fits the layout
/// and names what the site has.
pub fn letters_fit()
    ensures { (site : Site) → IsFit site → IsSmall site → IsLaidOut site → HasFittingLetters site }
{}

/// And so does each checkpoint that is ever sent as what changed since another one.
pub fn changes_fit()
    ensures { (site : Site) → IsFit site → IsSmall site → HasFittingChanges site }
{}
