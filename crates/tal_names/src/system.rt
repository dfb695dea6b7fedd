ghost use Rattle.std.specs.Prelude.{◌≡◌};
ghost use Rattle.tal_names.specs.Systems.{system_of};

use tal_syntax::Ident;

/// The system's own calls.
#[derive(Clone, Copy, PartialEq, Eq)]
pub enum System {
    CheckMonitor,
    Checkpoint,
    Open,
    ReadUpdate,
    Reply,
    Stop,
    WriteRead,
}

/// The system's call that has the name. Nothing that is declared hides it.
pub fn system_of(name: Ident) -> Option<System>
    ensures { result ≡ system_of name }
{
    match name.text() {
        b"CHECKMONITOR" => Some(System::CheckMonitor),
        b"CHECKPOINT" => Some(System::Checkpoint),
        b"OPEN" => Some(System::Open),
        b"READUPDATE" => Some(System::ReadUpdate),
        b"REPLY" => Some(System::Reply),
        b"STOP" => Some(System::Stop),
        b"WRITEREAD" => Some(System::WriteRead),
        _ => None,
    }
}
