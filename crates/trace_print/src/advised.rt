ghost use Rattle.std.specs.Prelude.{◌≡◌, ◌≤◌, [], ◌∷◌, ◌++◌, length, Some, codes};
ghost use Rattle.std.specs.Fmt.{decimal};
ghost use Rattle.gd_io.specs.Puts.{Puts};
ghost use Rattle.trace_print.specs.ActLine.{variable_name};
ghost use Rattle.trace_print.specs.AdviceText.{advice_line, advised_text, depth_in, depth_line, depth_lines};
ghost use Rattle.trace_print.specs.AdviceText.{file_line, files_text, globals_text, item_name, list_line, list_lines};
ghost use Rattle.trace_print.specs.AdviceText.{pair_text, pair_texts, place_text};
ghost use Rattle.trace_print.specs.VerdictText.{global_name};

use crate::acts::variable_name;
use crate::closing::{End, write_end};
use crate::line::Line;
use crate::shown::process_name;
use crate::verdict::global_name;
use gd_io::{Sink, WriteFault, put_all};
use site_advice::{Advised, PairAdvice};
use tal_tree::{FileUse, Kind, Program, Site, Target};

/// Writes the advice for the pairs of a site, in order, and the end. It takes no memory.
pub fn write_advised<K: Sink>(
    sink: &mut K,
    site: &Site,
    pairs: &[PairAdvice],
) -> Result<(), WriteFault>
    ensures { Puts K.held K.faults K.sure sink.old sink.new (advised_text site.now pairs.now) result }
{
    write_all_pairs(sink, site, pairs)?;
    write_end(sink, End::Advised)
}

fn write_all_pairs<K: Sink>(
    sink: &mut K,
    site: &Site,
    pairs: &[PairAdvice],
) -> Result<(), WriteFault>
    ensures { Puts K.held K.faults K.sure sink.old sink.new (pair_texts site.now pairs.now) result }
{
    for pair in pairs {
        write_pair(sink, site, pair)?;
    }
    Ok(())
}

/// Writes the advice for a pair: its line, a line for each CHECKPOINT, and one for each file that is opened to a
/// process. It takes no memory.
pub fn write_pair<K: Sink>(sink: &mut K, site: &Site, pair: &PairAdvice) -> Result<(), WriteFault>
    ensures { Puts K.held K.faults K.sure sink.old sink.new (pair_text site.now pair.now) result }
{
    write_lists(sink, site, pair.process, pair.advice.lists.as_slice())?;
    write_depths(sink, site, pair.process, pair.advice.depths.as_slice())
}

fn write_lists<K: Sink>(
    sink: &mut K,
    site: &Site,
    process: u8,
    lists: &[Advised],
) -> Result<(), WriteFault>
    ensures { Puts K.held K.faults K.sure sink.old sink.new
        (advice_line site.now process ++ list_lines site.now process lists.now) result }
{
    write_name(sink, site, process)?;
    write_all_lists(sink, site, process, lists)
}

fn write_name<K: Sink>(sink: &mut K, site: &Site, process: u8) -> Result<(), WriteFault>
    ensures { Puts K.held K.faults K.sure sink.old sink.new (advice_line site.now process) result }
{
    let line = advice_line(site, process);
    put_all(sink, line.bytes())
}

fn advice_line(site: &Site, process: u8) -> Line
    ensures { result ≡ advice_line site.now process }
{
    let mut line = Line::new();
    line.push(b"ADVICE ");
    line.push(process_name(site, process));
    line.push(b"\n");
    line
}

fn write_all_lists<K: Sink>(
    sink: &mut K,
    site: &Site,
    process: u8,
    lists: &[Advised],
) -> Result<(), WriteFault>
    ensures { Puts K.held K.faults K.sure sink.old sink.new (list_lines site.now process lists.now) result }
{
    for one in lists {
        write_list(sink, site, process, one)?;
    }
    Ok(())
}

fn write_list<K: Sink>(
    sink: &mut K,
    site: &Site,
    process: u8,
    one: &Advised,
) -> Result<(), WriteFault>
    ensures { Puts K.held K.faults K.sure sink.old sink.new (list_line site.now process one.now) result }
{
    write_named(sink, site, process, one)?;
    put_all(sink, b"\n")
}

fn write_named<K: Sink>(
    sink: &mut K,
    site: &Site,
    process: u8,
    one: &Advised,
) -> Result<(), WriteFault>
    ensures { Puts K.held K.faults K.sure sink.old sink.new
        (place_text one.now ++ globals_text site.now process one.now.items
        ++ files_text site.now process one.now.files) result }
{
    write_place_and_globals(sink, site, process, one)?;
    write_files(sink, site, process, one.files.as_slice())
}

fn write_place_and_globals<K: Sink>(
    sink: &mut K,
    site: &Site,
    process: u8,
    one: &Advised,
) -> Result<(), WriteFault>
    ensures { Puts K.held K.faults K.sure sink.old sink.new
        (place_text one.now ++ globals_text site.now process one.now.items) result }
{
    write_place(sink, one)?;
    write_globals(sink, site, process, one.items.as_slice())
}

fn write_place<K: Sink>(sink: &mut K, one: &Advised) -> Result<(), WriteFault>
    ensures { Puts K.held K.faults K.sure sink.old sink.new (place_text one.now) result }
{
    let line = place_text(one);
    put_all(sink, line.bytes())
}

fn place_text(one: &Advised) -> Line
    ensures { result ≡ place_text one.now }
{
    let mut line = Line::new();
    line.push(b"C ");
    line.number(i64::from(one.statement));
    line.push(b" ");
    line.number(i64::from(one.line));
    line
}

fn write_globals<K: Sink>(
    sink: &mut K,
    site: &Site,
    process: u8,
    items: &[u16],
) -> Result<(), WriteFault>
    ensures { Puts K.held K.faults K.sure sink.old sink.new (globals_text site.now process items.now) result }
{
    for item in items {
        write_global(sink, site, process, *item)?;
    }
    Ok(())
}

fn write_global<K: Sink>(
    sink: &mut K,
    site: &Site,
    process: u8,
    item: u16,
) -> Result<(), WriteFault>
    ensures { Puts K.held K.faults K.sure sink.old sink.new (32 ∷ global_name site.now process item) result }
{
    let name = spaced(global_name(site, process, item));
    put_all(sink, name.bytes())
}

fn write_files<K: Sink>(
    sink: &mut K,
    site: &Site,
    process: u8,
    files: &[u8],
) -> Result<(), WriteFault>
    ensures { Puts K.held K.faults K.sure sink.old sink.new (files_text site.now process files.now) result }
{
    for file in files {
        write_file(sink, site, process, *file)?;
    }
    Ok(())
}

fn write_file<K: Sink>(sink: &mut K, site: &Site, process: u8, file: u8) -> Result<(), WriteFault>
    ensures { Puts K.held K.faults K.sure sink.old sink.new (32 ∷ variable_name site.now process file) result }
{
    let name = spaced(variable_name(site, process, file));
    put_all(sink, name.bytes())
}

/// A name after a space.
fn spaced(name: &[u8]) -> Line
    requires { length name.now ≤ 31 }
    ensures { result ≡ 32 ∷ name.now }
{
    let mut line = Line::new();
    line.push(b" ");
    line.push(name);
    line
}

fn write_depths<K: Sink>(
    sink: &mut K,
    site: &Site,
    process: u8,
    depths: &[u8],
) -> Result<(), WriteFault>
    ensures { Puts K.held K.faults K.sure sink.old sink.new (depth_lines site.now process 0 depths.now) result }
{
    for (file, depth) in depths.iter().enumerate() {
        write_depth(sink, site, process, file, *depth)?;
    }
    Ok(())
}

fn write_depth<K: Sink>(
    sink: &mut K,
    site: &Site,
    process: u8,
    file: usize,
    depth: u8,
) -> Result<(), WriteFault>
    ensures { Puts K.held K.faults K.sure sink.old sink.new (depth_line site.now process file depth) result }
{
    let line = depth_line(site, process, file, depth);
    put_all(sink, line.bytes())
}

fn depth_line(site: &Site, process: u8, file: usize, depth: u8) -> Line
    ensures { result ≡ depth_line site.now process file depth }
{
    match site.processes.get(usize::from(process)) {
        Some(spec) => depth_in(&spec.what, file, depth),
        None => Line::new(),
    }
}

fn depth_in(what: &Kind, file: usize, depth: u8) -> Line
    ensures { result ≡ depth_in what.now file depth }
{
    let Kind::Pair(program) = what else {
        return Line::new();
    };
    match program.files.get(file) {
        Some(used) => file_line(program, used, depth),
        None => Line::new(),
    }
}

fn file_line(program: &Program, used: &FileUse, depth: u8) -> Line
    ensures { result ≡ file_line program.now (Some used.now) depth }
{
    match used.target {
        Target::Receive => Line::new(),
        Target::Process(_) => opened_line(item_name(program, used.item), depth),
    }
}

fn opened_line(name: &[u8], depth: u8) -> Line
    requires { length name.now ≤ 31 }
    ensures { result ≡ codes "O " ++ name.now ++ codes " " ++ decimal depth ++ 10 ∷ [] }
{
    let mut line = Line::new();
    line.push(b"O ");
    line.push(name);
    line.push(b" ");
    line.number(i64::from(depth));
    line.push(b"\n");
    line
}

fn item_name(program: &Program, item: u16) -> &[u8]
    ensures name { result.now ≡ item_name program.now item }
    ensures short { length result.now ≤ 31 }
{
    match program.items.get(usize::from(item)) {
        Some(found) => found.name.text(),
        None => &[],
    }
}
