ghost use Rattle.std.specs.Prelude.{◌≡◌, ◌<◌, [], ◌∷◌, List, length};
ghost use Rattle.run_table.specs.declared.rows.RunKind.{RunKind};
ghost use Rattle.run_table.specs.Counts.{row_of};

/// How a run ended: idle, cut short, or before a second processor would have stopped.
#[derive(Clone, Copy, PartialEq, Eq)]
pub enum RunKind {
    Idle,
    Cut,
    Second,
}

/// How many runs were made, and how many of them are of each kind.
#[derive(Clone, Copy, PartialEq, Eq, Default)]
pub struct Row {
    pub runs: u32,
    pub idle: u32,
    pub cut: u32,
    pub second: u32,
}

impl Row {
    /// The row of no run.
    pub fn new() -> Row
        ensures { result ≡ row_of [] }
    {
        Row {
            runs: 0,
            idle: 0,
            cut: 0,
            second: 0,
        }
    }

    /// Adds a run of this kind.
    pub fn add(&mut self, kind: RunKind)
        requires { (kinds : List RunKind) × (self.old ≡ row_of kinds) × (length kinds < 4294967295) }
        ensures { (kinds : List RunKind) → self.old ≡ row_of kinds → self.new ≡ row_of (kind ∷ kinds) }
    {
        self.runs += 1;
        match kind {
            RunKind::Idle => self.idle += 1,
            RunKind::Cut => self.cut += 1,
            RunKind::Second => self.second += 1,
        }
    }
}
