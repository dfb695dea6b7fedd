ghost use Rattle.std.specs.Prelude.{◌≡◌, ℕ, suc, ◌+◌, true, false, List, length};
ghost use Rattle.schedule.specs.declared.bus_name.BusName.{BusName};
ghost use Rattle.schedule.specs.declared.event.Counts.{Counts};
ghost use Rattle.schedule.specs.declared.line.Line.{Line};
ghost use Rattle.player.specs.declared.standing.Sizes.{Sizes};
ghost use Rattle.player.specs.declared.standing.Place.{Place};
ghost use Rattle.player.specs.declared.standing.Rule.{Rule};
ghost use Rattle.player.specs.Rounds.{next_turn};
ghost use Rattle.agendas.specs.Agendas.{Agenda};
ghost use Rattle.round_laws.specs.Buses.{Buses, BusesGo, IsGrown, themselves};
ghost use Rattle.round_laws.specs.Due.{IsDue};
ghost use Rattle.round_laws.specs.Rounds.{AreRounds, InRound, IsWholeRound};
ghost use Rattle.round_laws.specs.Stretches.{BeginsRound, CountsBuses, EndsRound, GoesOn, is_drain};
ghost use Rattle.round_laws.specs.Turns.{Turns, due};

/// What comes next in a round is of one of six kinds, by what is left of the round.
pub fn a_turn_is_of_six_kinds()
    ensures { (sizes : Sizes) (x y : ℕ) (place : Place)
        → Turns sizes x y place (next_turn sizes x y place).event (next_turn sizes x y place).place }
{}

/// A whole round delivers all that was on both buses as it began, and first of all: what comes off a bus begins with
/// what was on it. Of a round that breaks off, what came and what is still due begins with it.
pub fn a_whole_round_delivers_all()
    ensures whole { (sizes : Sizes) (start next : Buses) → (r : IsWholeRound sizes themselves BusesGo start next)
        → (bus : BusName) → IsGrown (start bus) (r.came bus) }
    ensures part { (sizes : Sizes) (start s : Buses) (came : BusName → List ℕ) (place : Place)
        → InRound sizes themselves BusesGo start came place s
        → (bus : BusName) → IsDue (start bus) (came bus) (due place bus (length (s bus))) (s bus) }
{}

/// From the beginning of a round of a `drain` or `until` line to the end of a later one, whole rounds are made. They
/// are as many as the line has fewer left.
pub fn a_stretch_is_made_of_whole_rounds()
    ensures { (sizes : Sizes) (counts : Buses → Counts) → CountsBuses themselves counts → (rule : Rule)
        → is_drain rule ≡ true → (left k : ℕ) (rest : List Line) (before now : ℕ) (agenda there : Agenda)
        (start s : Buses)
        → BeginsRound sizes (counts start) agenda rule (left + suc k) rest
        → GoesOn sizes counts BusesGo before agenda start now there s → EndsRound there rule left rest
        → AreRounds sizes themselves BusesGo start (suc k) s }
{}
