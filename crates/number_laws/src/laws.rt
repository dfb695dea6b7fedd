ghost use Rattle.std.specs.Prelude.{◌≡◌, ◌<◌, ◌≤◌, ℕ, List, Option, length};
ghost use Rattle.gd_words.specs.Members.{IsAmong};
ghost use Rattle.gd_words.specs.declared.message.Request.{Request};
ghost use Rattle.tal_tree.specs.declared.site.Site.{Site};
ghost use Rattle.schedule.specs.declared.event.Event.{Event};
ghost use Rattle.message_wires.specs.Play.{MachineState, marked_by, marks_from};
ghost use Rattle.world_semantics.specs.Running.{Done};
ghost use Rattle.message_wires.specs.Runs.{IsPlayed};
ghost use Rattle.message_wires.specs.Wires.{Sent};
ghost use Rattle.plain_semantics.specs.Openers.{openers_of};
ghost use Rattle.plain_semantics.specs.SiteLimits.{KeepsSiteLimits};
ghost use Rattle.world_semantics.specs.Messages.{Asking};
ghost use Rattle.message_wires.specs.HasRoom.{HasRoom, HasRoomForLetters};

/// After fewer than 4,294,967,294 events each number has a successor. Request numbers begin with 1, so after so many
/// events the next one on a file is at most one more; the other numbers are at most as many as the events.
pub fn numbers_have_successors()
    ensures { (site : Site) (events : List Event) (s : MachineState) → IsPlayed site events s
        → length events < 4294967294 → HasRoom s }
{}

/// On a site within the limits the count of letters keeps within 64 bits too. Each event sends one letter at most, but
/// for marks: a node marks each processor once, and what it sends then is bounded by what waits and what is kept.
pub fn letters_have_numbers()
    ensures { (site : Site) (events : List Event) (s : MachineState) → KeepsSiteLimits site → site.processors ≤ 255
        → IsPlayed site events s
        → length events < 4294967294 → HasRoomForLetters s }
{}

/// Within a tick the count of letters only grows, so each letter that is sent in it has a number below the count after
/// the event.
pub fn a_tick_only_adds_letters()
    ensures one { (node processor : ℕ) (s : MachineState) (done : Option Done)
        → s.wires.count ≤ (marked_by node processor s done).wires.count }
    ensures all { (node processor left : ℕ) (s : MachineState)
        → s.wires.count ≤ (marks_from node processor left s).wires.count }
{}

/// Each request on the bus names one of the openers of the process that it is for: whoever sends one is such an opener.
pub fn requests_name_their_openers()
    ensures { (site : Site) (events : List Event) (s : MachineState) → IsPlayed site events s
        → (packet : Sent) (request : Request)
        → IsAmong packet s.wires.bus → packet.letter.message ≡ Asking request
        → request.opener < length (openers_of s.site request.process) }
{}
