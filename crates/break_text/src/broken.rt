ghost use Rattle.std.specs.Prelude.{◌≡◌, ◌++◌, OnOk};
ghost use Rattle.break_text.specs.BreakText.{acts_text, break_text, kept_text, left_text, stop_text};
ghost use Rattle.break_text.specs.BreakText.{stopped_text, stuck_text, wrong_text};

use crate::apart::{put_apart, put_apart_if};
use crate::names::{act_name, actor_name};
use break_runs::{Break, Stuck, Wrong};
use gd_words::{List, NoMemory};
use player::ProcessorStop;
use std::alloc::Global;
use tal_tree::{Act, Site};
use text_pieces::{put, put_number};

/// Puts the run that breaks behind the text.
pub(crate) fn put_break(
    alloc: Global,
    text: &mut List<u8>,
    site: &Site,
    found: &Break,
) -> Result<(), NoMemory>
    ensures { OnOk result (text.new ≡ text.old ++ break_text site.now found.now) }
{
    put_stop(text, found.stop)?;
    put_wrong(alloc, text, site, &found.wrong)
}

fn put_stop(text: &mut List<u8>, stop: Option<ProcessorStop>) -> Result<(), NoMemory>
    ensures { OnOk result (text.new ≡ text.old ++ stop_text stop) }
{
    match stop {
        None => put(
            text,
            b"the run breaks with no stop but those of its schedule:\n",
        ),
        Some(stop) => put_stopped(text, stop),
    }
}

fn put_stopped(text: &mut List<u8>, stop: ProcessorStop) -> Result<(), NoMemory>
    ensures { OnOk result (text.new ≡ text.old ++ stopped_text stop) }
{
    put(text, b"a run breaks in which processor ")?;
    put_number(text, u64::from(stop.processor))?;
    put(text, b" stops after ")?;
    put_number(text, u64::from(stop.after))?;
    put(text, b" events:\n")
}

fn put_wrong(alloc: Global, text: &mut List<u8>, site: &Site, wrong: &Wrong) -> Result<(), NoMemory>
    ensures { OnOk result (text.new ≡ text.old ++ wrong_text site.now wrong.now) }
{
    match wrong {
        Wrong::Stuck(stuck) => put_stuck(alloc, text, site, stuck),
        Wrong::Differs(apart) => put_apart(alloc, text, site, apart),
        Wrong::Left => put_left(text),
    }
}

/// Puts the acts of this run that unfailing processes can't all do behind the text.
fn put_stuck(alloc: Global, text: &mut List<u8>, site: &Site, stuck: &Stuck) -> Result<(), NoMemory>
    ensures { OnOk result (text.new ≡ text.old ++ stuck_text site.now stuck.now) }
{
    put_apart_if(alloc, text, site, &stuck.apart)?;
    put_acts(text, stuck.made as u64)?;
    put_kept(text, site, stuck.act)
}

fn put_acts(text: &mut List<u8>, before: u64) -> Result<(), NoMemory>
    ensures { OnOk result (text.new ≡ text.old ++ acts_text before) }
{
    put(
        text,
        b"  acts of this run that unfailing processes can do: ",
    )?;
    put_number(text, before)?;
    put(text, b"\n")
}

fn put_kept(text: &mut List<u8>, site: &Site, act: Act) -> Result<(), NoMemory>
    ensures { OnOk result (text.new ≡ text.old ++ kept_text site.now act) }
{
    put(text, b"  then comes ")?;
    put(text, act_name(act))?;
    put(text, actor_name(site, act))?;
    put(text, b", which they can't do there\n")
}

fn put_left(text: &mut List<u8>) -> Result<(), NoMemory>
    ensures { OnOk result (text.new ≡ text.old ++ left_text) }
{
    put(
        text,
        b"  it shows what unfailing processes show, and ends idle\n",
    )?;
    put(
        text,
        b"  unfailing processes have something left to do there\n",
    )
}
