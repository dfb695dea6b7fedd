ghost use Rattle.std.specs.Prelude.{◌≡◌};
ghost use Rattle.alive_regroup.specs.declared.neighbour.Missed.TheVariants as missed;
ghost use Rattle.alive_regroup.specs.declared.neighbour.Neighbour.TheVariants.{Up};
ghost use Rattle.alive_regroup.specs.Sets.{nobody};
ghost use Rattle.alive_regroup.specs.Watching.{risen, is_more, neighbour_after_check, neighbour_after_alive, is_silent};
ghost use Rattle.alive_regroup.specs.Watching.{is_up, is_down, neighbour_after_report, agrees, neighbour_after_down};
ghost use Rattle.alive_regroup.specs.Watching.{neighbour_after_up, neighbour_after_up_of};
ghost use Rattle.alive_regroup.specs.Watching.{is_missed};
ghost use Rattle.alive_regroup.specs.Listening.{is_at_rest};

use crate::set::ProcessorSet;

/// At how many checks in a row no alive packet had come: none, one, or two and more.
#[derive(Clone, Copy)]
pub enum Missed {
    None,
    One,
    More,
}

/// What a node knows of a number up to 15: it is no other processor of the site; it is one, with the checks missed and
/// the silent set that it reported last; or it is one that is marked down. Of either an alive packet came since the
/// last check or not.
#[derive(Clone, Copy)]
pub enum Neighbour {
    Absent,
    Up {
        heard: bool,
        missed: Missed,
        report: ProcessorSet,
    },
    Down {
        heard: bool,
    },
}

impl Neighbour {
    /// An alive packet came from it.
    pub fn hear(&mut self)
        ensures { self.new ≡ neighbour_after_alive self.old }
    {
        match self {
            Neighbour::Absent => {}
            Neighbour::Up {
                heard,
                missed: _,
                report: _,
            } => *heard = true,
            Neighbour::Down { heard: _ } => {}
        }
    }

    /// A check of who was heard. Answers whether the processor is silent then.
    pub fn check(&mut self) -> bool
        ensures silent { result ≡ is_silent (neighbour_after_check self.old) }
        ensures after { self.new ≡ neighbour_after_check self.old }
    {
        match self {
            Neighbour::Absent => false,
            Neighbour::Up {
                heard,
                missed,
                report: _,
            } => {
                *missed = if *heard { Missed::None } else { missed.risen() };
                *heard = false;
                missed.is_more()
            }
            Neighbour::Down { heard } => {
                *heard = false;
                false
            }
        }
    }

    /// What is known of the processor after a report from it.
    pub fn reported(&self, set: ProcessorSet) -> Neighbour
        ensures { result ≡ neighbour_after_report set self.now }
    {
        match self {
            Neighbour::Absent => Neighbour::Absent,
            Neighbour::Up {
                heard,
                missed,
                report: _,
            } => Neighbour::Up {
                heard: *heard,
                missed: *missed,
                report: set,
            },
            Neighbour::Down { heard } => Neighbour::Down { heard: *heard },
        }
    }

    /// After the node has marked it down.
    pub fn marked(&self) -> Neighbour
        ensures { result ≡ neighbour_after_down self.now }
    {
        match self {
            Neighbour::Absent => Neighbour::Absent,
            Neighbour::Up {
                heard,
                missed: _,
                report: _,
            }
            | Neighbour::Down { heard } => Neighbour::Down { heard: *heard },
        }
    }

    /// After it was loaded again.
    pub fn come_up(&self) -> Neighbour
        ensures { result ≡ neighbour_after_up self.now }
    {
        match self {
            Neighbour::Absent => Neighbour::Absent,
            Neighbour::Up {
                heard,
                missed: _,
                report: _,
            }
            | Neighbour::Down { heard } => neighbour_up(*heard),
        }
    }

    /// Another processor was loaded again.
    pub fn forget(&mut self, processor: u8)
        ensures { self.new ≡ neighbour_after_up_of processor self.old }
    {
        match self {
            Neighbour::Absent => {}
            Neighbour::Up {
                heard: _,
                missed: _,
                report,
            } => *report = report.without(processor),
            Neighbour::Down { heard: _ } => {}
        }
    }

    /// Whether it is another processor that isn't marked down.
    pub fn is_up(&self) -> bool
        ensures { result ≡ is_up self.now }
    {
        match self {
            Neighbour::Absent => false,
            Neighbour::Up {
                heard: _,
                missed: _,
                report: _,
            } => true,
            Neighbour::Down { heard: _ } => false,
        }
    }

    /// Whether the node has marked it down.
    pub fn is_down(&self) -> bool
        ensures { result ≡ is_down self.now }
    {
        match self {
            Neighbour::Absent => false,
            Neighbour::Up {
                heard: _,
                missed: _,
                report: _,
            } => false,
            Neighbour::Down { heard: _ } => true,
        }
    }

    /// Whether two or more checks missed it, and it isn't marked down.
    pub fn is_silent(&self) -> bool
        ensures { result ≡ is_silent self.now }
    {
        match self {
            Neighbour::Absent => false,
            Neighbour::Up {
                heard: _,
                missed,
                report: _,
            } => missed.is_more(),
            Neighbour::Down { heard: _ } => false,
        }
    }

    /// Whether the last check missed it, and it isn't marked down.
    pub fn is_missed(&self) -> bool
        ensures { result ≡ is_missed self.now }
    {
        match self {
            Neighbour::Absent => false,
            Neighbour::Up {
                heard: _,
                missed,
                report: _,
            } => !matches!(missed, Missed::None),
            Neighbour::Down { heard: _ } => false,
        }
    }

    /// Whether a check leaves it as it is, if an alive packet came from it where it is up.
    pub fn is_at_rest(&self) -> bool
        ensures { result ≡ is_at_rest self.now }
    {
        match self {
            Neighbour::Absent => true,
            Neighbour::Up {
                heard,
                missed: Missed::None,
                report: _,
            } => !*heard,
            Neighbour::Up {
                heard: _,
                missed: Missed::One | Missed::More,
                report: _,
            } => false,
            Neighbour::Down { heard } => !*heard,
        }
    }

    /// Whether its last report has this processor; one that isn't up has no say.
    pub fn agrees(&self, processor: u8) -> bool
        ensures { result ≡ agrees processor self.now }
    {
        match self {
            Neighbour::Absent => true,
            Neighbour::Up {
                heard: _,
                missed: _,
                report,
            } => report.has(processor),
            Neighbour::Down { heard: _ } => true,
        }
    }
}

/// A processor that is up, of which an alive packet came since the last check or not. No check missed it, and it
/// reported nobody.
pub(crate) fn neighbour_up(heard: bool) -> Neighbour
    ensures { result ≡ Up heard missed.None nobody }
{
    Neighbour::Up {
        heard,
        missed: Missed::None,
        report: ProcessorSet::nobody(),
    }
}

impl Missed {
    fn risen(&self) -> Missed
        ensures { result ≡ risen self.now }
    {
        match self {
            Missed::None => Missed::One,
            Missed::One => Missed::More,
            Missed::More => Missed::More,
        }
    }

    fn is_more(&self) -> bool
        ensures { result ≡ is_more self.now }
    {
        match self {
            Missed::None => false,
            Missed::One => false,
            Missed::More => true,
        }
    }
}
