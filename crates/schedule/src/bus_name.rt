ghost use Rattle.std.specs.Prelude.{◌≡◌};
ghost use Rattle.schedule.specs.Buses.{other_bus};

/// One of the two buses between the nodes.
#[derive(Clone, Copy, PartialEq, Eq)]
pub enum BusName {
    X,
    Y,
}

impl BusName {
    /// The other bus.
    pub fn other(self) -> BusName
        ensures { result ≡ other_bus self }
    {
        match self {
            BusName::X => BusName::Y,
            BusName::Y => BusName::X,
        }
    }
}
