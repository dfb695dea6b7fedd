ghost use Rattle.std.specs.Prelude.{◌≡◌};
ghost use Rattle.alive_regroup.specs.Sets.{has, nobody, without};

/// A set of processors: for each number from 0 on whether the processor is a member.
#[derive(Clone, Copy, PartialEq, Eq)]
pub struct ProcessorSet {
    pub members: [bool; 16],
}

impl ProcessorSet {
    /// The set without members.
    pub fn nobody() -> ProcessorSet
        ensures { result ≡ nobody }
    {
        ProcessorSet {
            members: [false; 16],
        }
    }

    /// Whether a processor is in the set; none from 16 on is.
    pub fn has(&self, processor: u8) -> bool
        ensures { result ≡ has self.now processor }
    {
        match self.members.get(usize::from(processor)) {
            Some(there) => *there,
            None => false,
        }
    }

    /// The set without a processor.
    pub fn without(&self, processor: u8) -> ProcessorSet
        ensures { result ≡ without processor self.now }
    {
        let mut members = self.members;
        let place = usize::from(processor);
        if place < members.len() {
            members[place] = false;
        }
        ProcessorSet { members }
    }
}
