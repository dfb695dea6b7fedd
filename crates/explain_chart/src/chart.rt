ghost use Rattle.std.specs.Prelude.{◌≡◌, ◌≤◌, length, IfOk};
ghost use Rattle.chart_drawing.specs.Chart.{drawing_of};
ghost use Rattle.explain_why.specs.deck_reader.specs.Decks.{Decks};
ghost use Rattle.explain_chart.specs.DeckCharts as spec;
ghost use Rattle.explain_chart.specs.DeckCharts.{ChartsSite, IsChartDeck, IsOfChart};
ghost use Rattle.charted_runs.specs.packet_runs.specs.Runs.{course_on, packet_rules};
ghost use Rattle.schedule_loop.specs.Ends.{CanBePlayed};
ghost use Rattle.charted_runs.specs.site_machine.specs.Needs.{IsReady};
ghost use Rattle.charted_runs.specs.site_machine.specs.process_copies.specs.Starting.{IsStartable};
ghost use Rattle.svg_text.specs.Sheets.{drawing_text};
ghost use Rattle.traced_decks.specs.PlacesOf.{places_of};
ghost use Rattle.traced_decks.specs.verdicts.specs.Refused.{AreAccepted};
ghost use Rattle.gd_words.specs.declared.limits.TheConstants.{MOST_DECK_BYTES};

use crate::scope::Scope;
use chart_drawing::{Chart, Layout};
use charted_runs::{ChartFault, chart_run, sizes_of};
use explain_why::{
    Deck, JudgedDeck, judged_deck, programs_of_a_deck_can_be_judged,
    unrefused_programs_are_accepted,
};
use gd_words::{List, NoMemory};
use logs::Shared;
use player::ProcessorStop;
use schedule::Line;
use std::alloc::Global;
use svg_text::put_drawing;
use tal_tree::Site;
use trace_lines::Places;
use traced_decks::{an_accepted_deck_meets_the_premises, places_of};

/// Where a program of the deck is refused, what is told of its programs. Else the deck is run, with a stop of a
/// processor where one is given, and its events within the scope are drawn.
pub fn chart_deck(
    alloc: Global,
    bytes: &[u8],
    deck: Deck,
    stop: Option<ProcessorStop>,
    scope: Scope,
) -> Result<JudgedDeck, ChartFault>
    requires spelt { Decks bytes.now deck }
    requires few { length bytes.now ≤ MOST_DECK_BYTES }
    ensures { IsChartDeck bytes.now deck stop scope result }
{
    programs_of_a_deck_can_be_judged();
    unrefused_programs_are_accepted();
    let judged = match judged_deck(alloc, bytes, deck.site.processes.as_slice()) {
        Ok(judged) => judged,
        Err(memory) => return Err(ChartFault::NoMemory(memory)),
    };
    if judged.refused {
        return Ok(judged);
    }
    accepted_chart(alloc, bytes, deck, stop, scope)
}

/// The chart of a deck whose programs are accepted.
fn accepted_chart(
    alloc: Global,
    bytes: &[u8],
    deck: Deck,
    stop: Option<ProcessorStop>,
    scope: Scope,
) -> Result<JudgedDeck, ChartFault>
    requires spelt { Decks bytes.now deck }
    requires few { length bytes.now ≤ MOST_DECK_BYTES }
    requires accepted { AreAccepted deck.site.processes }
    ensures { IsOfChart bytes.now deck stop scope result }
{
    match places_of(alloc, bytes, &deck.site) {
        Ok(places) => placed_chart(alloc, bytes, deck, &places, stop, scope),
        Err(memory) => Err(ChartFault::NoMemory(memory)),
    }
}

/// The same, where its statements stand at these places.
fn placed_chart(
    alloc: Global,
    bytes: &[u8],
    deck: Deck,
    places: &Places,
    stop: Option<ProcessorStop>,
    scope: Scope,
) -> Result<JudgedDeck, ChartFault>
    requires spelt { Decks bytes.now deck }
    requires accepted { AreAccepted deck.site.processes }
    requires placed { places.now ≡ places_of bytes.now deck.site }
    ensures { IsOfChart bytes.now deck stop scope result }
{
    an_accepted_deck_meets_the_premises();
    let Deck { site, lines } = deck;
    match Shared::new(alloc, site) {
        Ok(site) => told(site_chart(alloc, &site, places, lines.as_slice(), stop, scope)),
        Err(memory) => Err(ChartFault::NoMemory(memory)),
    }
}

fn told(text: Result<List<u8>, ChartFault>) -> Result<JudgedDeck, ChartFault>
    ensures { result ≡ spec.told text }
{
    match text {
        Ok(told) => Ok(JudgedDeck {
            refused: false,
            told,
        }),
        Err(fault) => Err(fault),
    }
}

/// The chart of a schedule on a site, as text.
fn site_chart(
    alloc: Global,
    site: &Shared<Site>,
    places: &Places,
    lines: &[Line],
    stop: Option<ProcessorStop>,
    scope: Scope,
) -> Result<List<u8>, ChartFault>
    requires startable { IsStartable site.now }
    requires can { CanBePlayed packet_rules IsReady (course_on site.now lines.now stop) }
    ensures { ChartsSite site.now places.now lines.now stop scope result }
{
    let layout = layout_of(site.get(), scope);
    match chart_run(alloc, site, places, lines, stop, layout, scope.span.to) {
        Ok(charted) => chart_told(chart_text(alloc, site.get(), charted.chart)),
        Err(fault) => Err(fault),
    }
}

fn chart_told(text: Result<List<u8>, NoMemory>) -> Result<List<u8>, ChartFault>
    ensures { result ≡ spec.chart_told text }
{
    match text {
        Ok(text) => Ok(text),
        Err(memory) => Err(ChartFault::NoMemory(memory)),
    }
}

/// The layout of a site's chart.
fn layout_of(site: &Site, scope: Scope) -> Layout
    requires { IsStartable site.now }
    ensures { result ≡ spec.layout_of site.now scope }
{
    let sizes = sizes_of(site);
    Layout {
        processors: sizes.processors,
        processes: sizes.processes,
        from: u64::from(scope.span.from),
        alive: scope.alive,
    }
}

/// A chart as text.
fn chart_text(alloc: Global, site: &Site, chart: Chart) -> Result<List<u8>, NoMemory>
    ensures { IfOk result (λ text. text ≡ drawing_text (drawing_of site.now chart)) }
{
    let drawing = chart.drawing(alloc, site)?;
    let mut text = List::new(alloc);
    put_drawing(alloc, &mut text, &drawing)?;
    Ok(text)
}
