//! Lines of a trace as they are written.
ghost use Rattle.std.specs.Fmt.{decimal, signed_decimal};
ghost use Rattle.std.specs.Prelude.{◌≡◌, pos, codes, [], ◌∷◌, ◌++◌, None, Some, ℕ, ℤ};
ghost use Rattle.mirror.specs.declared.state.DriveState.TheVariants.{Failed, Reviving, Working};
ghost use Rattle.process_semantics.specs.declared.point.Point.TheVariants as point;
ghost use Rattle.schedule.specs.declared.bus_name.BusName.TheVariants as bus;
ghost use Rattle.schedule.specs.declared.event.DriveChange.TheVariants.{Break, Copy, Revive};
ghost use Rattle.schedule.specs.declared.event.Event.TheVariants as event;
ghost use Rattle.alive_regroup.specs.Sets.{nobody};
ghost use Rattle.tal_tree.specs.declared.site.Who.TheVariants as who;
ghost use Rattle.trace_lines.specs.EventLine.{event_line, event_text};
ghost use Rattle.trace_lines.specs.FindingWords.{found_text};
ghost use Rattle.trace_lines.specs.MessageNames.{message_text};
ghost use Rattle.trace_lines.specs.declared.finding.ActName.TheVariants as act;
ghost use Rattle.trace_lines.specs.declared.finding.Fate.TheVariants as fate;
ghost use Rattle.trace_lines.specs.declared.finding.Finding.TheVariants as finding;
ghost use Rattle.trace_lines.specs.declared.finding.MessageName.TheVariants as name;
ghost use Rattle.trace_lines.specs.declared.finding.PacketSort.TheVariants as sort;
ghost use Rattle.trace_lines.specs.declared.finding.WhyIgnored.TheVariants as why;
ghost use Rattle.trace_guards.specs.Lines.{adder_site, places, second_silent};
ghost use Rattle.trace_guards.specs.Runs.{packet, piece, sends, sends_again};
ghost use Rattle.world_semantics.specs.Examples.{reply};

/// A line has the number, the event as a line of a schedule asks for it, what it did and what it showed.
pub fn lines_are_written_so()
    ensures run { event_line adder_site places 2 (event.Run 0) (finding.Makes 0 2 ∷ []) []
        ≡ decimal 2 ++ codes " run $ADD" ++ (codes " | line " ++ decimal 4 ++ codes ": WHILE 1 DO" ++ []) ++ []
        ++ 10 ∷ [] }
    ensures tick { event_line adder_site places 15 (event.Tick 16) [] []
        ≡ decimal 15 ++ codes " " ++ (codes "tick " ++ decimal 16 ++ []) ++ [] ++ [] ++ 10 ∷ [] }
    ensures deliver { event_line adder_site places 9 (event.Deliver bus.Y 3)
        (packet (sort.LastPiece 1) 0 16 fate.Came ∷ []) (reply 0 (pos 5) ∷ [])
        ≡ decimal 9 ++ codes " " ++ (codes "deliver y " ++ decimal 3 ++ [])
        ++ (codes " | " ++ (((codes "last piece " ++ decimal 1 ++ [])
        ++ ((codes " from " ++ decimal 0 ++ []) ++ (codes " for " ++ decimal 16 ++ [])) ++ codes " comes") ++ []) ++ [])
        ++ (codes " | $T prints reply " ++ decimal 1 ++ codes ":" ++ (codes " " ++ signed_decimal (pos 5) ++ []) ++ [])
        ++ 10 ∷ [] }
{}

/// An event of a drive is named as its line of a schedule.
pub fn drives_are_named_so()
    ensures breaks { event_text adder_site (event.Drive (record { process = 0; drive = 1; change = Break }))
        ≡ codes "break $ADD " ++ decimal 1 ++ [] }
    ensures revives { event_text adder_site (event.Drive (record { process = 0; drive = 0; change = Revive }))
        ≡ codes "revive $ADD " ++ decimal 0 ++ [] }
    ensures copies { event_text adder_site (event.Drive (record { process = 0; drive = 0; change = Copy }))
        ≡ codes "copy $ADD " ++ decimal 0 ++ [] }
{}

/// What an event did is told in these words.
pub fn findings_are_told_so()
    ensures end { found_text adder_site places (finding.Makes 0 0) ≡ codes "the end of a procedure" }
    ensures takes_over { (era : ℕ) → found_text adder_site places (finding.TakesOver 0 1 era (Some 1))
        ≡ codes "$ADD" ++ (codes " in processor " ++ decimal 1 ++ [])
        ++ (codes " takes over, era " ++ decimal era ++ [])
        ++ (codes ", from " ++ (codes "line " ++ decimal 3 ++ codes ": " ++ codes "CALL CHECKMONITOR;")) }
    ensures unknown { (era : ℕ) → found_text adder_site places (finding.TakesOver 0 1 era None)
        ≡ codes "$ADD" ++ (codes " in processor " ++ decimal 1 ++ [])
        ++ (codes " takes over, era " ++ decimal era ++ []) ++ [] }
    ensures applies { (number : ℕ) → found_text adder_site places (finding.AppliesCheckpoint 0 1 number)
        ≡ codes "$ADD" ++ (codes " in processor " ++ decimal 1 ++ [])
        ++ (codes " puts checkpoint " ++ decimal number ++ codes " in") }
    ensures sets { (value : ℤ) → found_text adder_site places (finding.Sets 0 0 0 value)
        ≡ codes "TOTAL = " ++ signed_decimal value }
    ensures sets_in_array { (value : ℤ) → found_text adder_site places (finding.Sets 0 3 0 value)
        ≡ codes "BUF" ++ (codes "[" ++ signed_decimal (pos 0) ++ codes "]") ++ codes " = " ++ signed_decimal value }
    ensures waits { (number : ℕ) → found_text adder_site places (finding.Waits 0 1 number)
        ≡ codes "$ADD" ++ (codes " in processor " ++ decimal 1 ++ [])
        ++ (codes " has request " ++ decimal number ++ codes " waiting") }
    ensures still { found_text adder_site places (finding.StandsStill point.Await) ≡ codes "waits for a reply" }
    ensures marks { (node processor : ℕ) → found_text adder_site places (finding.Marks node processor)
        ≡ codes "node " ++ decimal node ++ [] ++ (codes " marks processor " ++ decimal processor ++ []) }
    ensures second { (processor : ℕ) → found_text adder_site places (finding.WouldStopSecond processor)
        ≡ codes "processor " ++ decimal processor
        ++ codes " would stop while another has, or a process has no backup: the run ends here" }
    ensures disc { found_text adder_site places (finding.DiscGoesOn point.Device) ≡ codes "calls its device" }
    ensures lost { found_text adder_site places (packet sort.Alive 1 0 fate.Lost)
        ≡ (codes "an alive packet" ++ ((codes " from " ++ decimal 1 ++ []) ++ (codes " for " ++ decimal 0 ++ []))
        ++ codes " is lost") ++ [] }
{}

/// A message is named in these words: behind the packet that is a piece of it, and if it is sent.
pub fn messages_are_named_so()
    ensures piece { (number : ℕ) → found_text adder_site places (piece (sort.LastPiece 1) 16 0 fate.CameAgain
        (name.Request (Some (who.Terminal 0)) 0 number))
        ≡ ((codes "last piece " ++ decimal 1 ++ []) ++ ((codes " from " ++ decimal 16 ++ [])
        ++ (codes " for " ++ decimal 0 ++ [])) ++ codes " comes again")
        ++ (codes ": " ++ ((codes "request " ++ decimal number ++ []) ++ codes " of $T") ++ codes " to $ADD") }
    ensures sends { (number last : ℕ) → found_text adder_site places (sends 0 16 last
        (name.Reply (Some (who.Terminal 0)) 0 number))
        ≡ codes "sends " ++ (codes "reply of $ADD to " ++ (codes "request " ++ decimal number ++ []) ++ codes " of $T")
        ++ [] ++ (codes ", last piece " ++ decimal last ++ []) ++ ((codes " from " ++ decimal 0 ++ [])
        ++ (codes " for " ++ decimal 16 ++ [])) }
    ensures sends_again { (number last : ℕ) → found_text adder_site places (sends_again 16 1 last
        (name.Request (Some (who.Terminal 0)) 0 number))
        ≡ codes "sends " ++ (((codes "request " ++ decimal number ++ []) ++ codes " of $T") ++ codes " to $ADD")
        ++ codes " again" ++ (codes ", last piece " ++ decimal last ++ []) ++ ((codes " from " ++ decimal 16 ++ [])
        ++ (codes " for " ++ decimal 1 ++ [])) }
    ensures of_process { (number : ℕ) → message_text adder_site (name.Request (Some (who.File 0 1)) 0 number)
        ≡ ((codes "request " ++ decimal number ++ []) ++ codes " of $ADD") ++ codes " to $ADD" }
    ensures of_nobody { (number : ℕ) → message_text adder_site (name.Request None 0 number)
        ≡ ((codes "request " ++ decimal number ++ []) ++ []) ++ codes " to $ADD" }
    ensures checkpoint { (number : ℕ) → message_text adder_site (name.Checkpoint 0 1 number)
        ≡ (codes "checkpoint " ++ decimal number ++ codes " of ") ++ codes "$ADD" }
    ensures taken { (number : ℕ) → message_text adder_site (name.Taken 0 1 number)
        ≡ codes "that " ++ ((codes "checkpoint " ++ decimal number ++ codes " of ") ++ codes "$ADD")
        ++ codes " was taken" }
    ensures report { message_text adder_site (name.Report 1 second_silent)
        ≡ (codes "report of node " ++ decimal 1 ++ codes ", silent:") ++ ((codes " " ++ decimal 2 ++ []) ++ []) }
    ensures nobody { message_text adder_site (name.Report 1 nobody)
        ≡ (codes "report of node " ++ decimal 1 ++ codes ", silent:") ++ codes " none" }
    ensures down { (processor : ℕ) → message_text adder_site (name.Down processor)
        ≡ codes "that processor " ++ decimal processor ++ codes " is down" }
{}

/// How a drive stands is told, and that the last one of a disc would fail.
pub fn drives_are_told_so()
    ensures works { found_text adder_site places (finding.Drive Working) ≡ codes "the drive works" }
    ensures failed { found_text adder_site places (finding.Drive Failed) ≡ codes "the drive has failed" }
    ensures reviving { (next : ℕ) → found_text adder_site places (finding.Drive (Reviving next))
        ≡ codes "the drive is being revived, next sector " ++ decimal next ++ [] }
    ensures lost { found_text adder_site places (finding.WouldLoseDisc 0)
        ≡ codes "the last drive of $ADD would fail: the run ends here" }
{}

/// Silence, reports and the hold line are told in these words.
pub fn silence_is_told_so()
    ensures misses { (node processor : ℕ) → found_text adder_site places (finding.Misses node processor)
        ≡ (codes "node " ++ decimal node ++ []) ++ (codes " misses processor " ++ decimal processor ++ []) }
    ensures silent { (node processor : ℕ) → found_text adder_site places (finding.FindsSilent node processor)
        ≡ (codes "processor " ++ decimal processor ++ []) ++ (codes " is silent to node " ++ decimal node ++ []) }
    ensures reports { (node : ℕ) → found_text adder_site places (finding.Reports node second_silent)
        ≡ (codes "node " ++ decimal node ++ codes " reports, silent:") ++ ((codes " " ++ decimal 2 ++ []) ++ []) }
    ensures pulls { (node processor : ℕ) → found_text adder_site places (finding.PullsLine node processor)
        ≡ (codes "node " ++ decimal node ++ []) ++ (codes " pulls the hold line of processor " ++ decimal processor
        ++ []) }
{}

/// Acts that are kept or held back are told in these words.
pub fn acts_are_told_so()
    ensures keeps { found_text adder_site places (finding.Keeps (act.Step 0)) ≡ codes "keeps step $ADD" }
    ensures holds { found_text adder_site places (finding.HoldsBack (act.Take 0 (Some (who.Terminal 0))))
        ≡ codes "holds back take $ADD of $T" }
    ensures of_nobody { found_text adder_site places (finding.Keeps (act.Take 0 None))
        ≡ codes "keeps take $ADD" }
    ensures enters { found_text adder_site places (finding.Keeps (act.Enter 0)) ≡ codes "keeps enter $T" }
    ensures prints { found_text adder_site places (finding.Keeps (act.Print 0)) ≡ codes "keeps print $T" }
{}

/// What a copy does with a checkpoint, or with the message that one was taken, is told in these words.
pub fn checkpoints_are_told_so()
    ensures acts { (number : ℕ) → found_text adder_site places (finding.IgnoresCheckpoint 0 1 number why.Acts)
        ≡ ((codes "$ADD" ++ (codes " in processor " ++ decimal 1 ++ []))
        ++ (codes " ignores checkpoint " ++ decimal number ++ [])) ++ codes ": it acts itself" }
    ensures other_era { (number : ℕ) → found_text adder_site places
        (finding.IgnoresCheckpoint 0 1 number why.OtherEra)
        ≡ ((codes "$ADD" ++ (codes " in processor " ++ decimal 1 ++ []))
        ++ (codes " ignores checkpoint " ++ decimal number ++ [])) ++ codes ": that is of another era" }
    ensures not_next { (number : ℕ) → found_text adder_site places (finding.IgnoresCheckpoint 0 1 number why.NotNext)
        ≡ ((codes "$ADD" ++ (codes " in processor " ++ decimal 1 ++ []))
        ++ (codes " ignores checkpoint " ++ decimal number ++ [])) ++ codes ": that isn't the next one" }
    ensures taken { (number : ℕ) → found_text adder_site places (finding.HearsTaken 0 0 number)
        ≡ ((codes "$ADD" ++ (codes " in processor " ++ decimal 0 ++ []))
        ++ (codes " hears of its checkpoint " ++ decimal number ++ [])) ++ codes " that it was taken" }
{}
