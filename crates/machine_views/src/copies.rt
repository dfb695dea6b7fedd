ghost use Rattle.std.specs.Prelude.{◌≡◌, ◌++◌, option_to_list, slice_get, IfOk, OnOk};
ghost use Rattle.site_machine.specs.world_copies.specs.Seen.{pairs_in};
ghost use Rattle.machine_views.specs.Seen.{AreNumbered};
ghost use Rattle.machine_views.specs.Views.{awaited_view, copy_view, copy_views, each_at, file_number};

use crate::process::image_of_everything;
use crate::views::{Awaited, CopyView};
use checkpoint_image::FileNumber;
use gd_words::{List, NoMemory, Request};
use process_semantics::Point;
use site_machine::{CopyControl, NodeCopy, Process, ProcessCopies, Waiting, copy_request};
use std::alloc::Global;
use world_semantics::Which;

/// Both copies of each process.
pub(crate) fn copies(alloc: Global, processes: &[ProcessCopies]) -> Result<List<CopyView>, NoMemory>
    requires { AreNumbered processes.now }
    ensures { IfOk result (λ views. views ≡ each_at copy_views 0 (pairs_in processes.now)) }
{
    let mut views = List::new(alloc);
    for process in processes {
        add_copies(alloc, process, &mut views)?;
    }
    Ok(views)
}

/// Both copies of a process are added to `views`.
fn add_copies(
    alloc: Global,
    process: &ProcessCopies,
    views: &mut List<CopyView>,
) -> Result<(), NoMemory>
    ensures { OnOk result (views.new ≡ views.old ++ copy_views process.now.number process.now.pair) }
{
    let first = view_of(alloc, process.number(), process.copy(Which::First))?;
    let second = view_of(alloc, process.number(), process.copy(Which::Second))?;
    if second.processor < first.processor {
        views.push(second)?;
        views.push(first)?;
    } else {
        views.push(first)?;
        views.push(second)?;
    }
    Ok(())
}

/// A copy of a process.
fn view_of(alloc: Global, process: u8, copy: &NodeCopy) -> Result<CopyView, NoMemory>
    ensures { IfOk result (λ view. view ≡ copy_view process copy.now.copy) }
{
    let control = copy.control();
    let state = image_of_everything(alloc, control.behaviour())?;
    let files = file_numbers(alloc, control)?;
    let receive = control.receive().block(alloc)?;
    let waiting = waiting_requests(alloc, copy.waiting())?;
    Ok(CopyView {
        process,
        processor: copy.processor(),
        role: control.role(),
        era: control.era(),
        number: control.number(),
        sent: control.sent(),
        renewal: control.renewal(),
        awaited: awaited(control),
        point: control.point(),
        next: control.behaviour().next_number(),
        state,
        files,
        receive,
        waiting,
    })
}

/// The request whose reply a copy awaits.
fn awaited(control: &CopyControl<Process>) -> Option<Awaited>
    ensures { result ≡ awaited_view control.now.core }
{
    match control.point() {
        Point::Await => {
            let file = control.behaviour().asked_file();
            Some(Awaited {
                file,
                number: control.next_on(file).saturating_sub(1),
            })
        }
        _ => None,
    }
}

/// The number of the next request on each file.
fn file_numbers(alloc: Global, control: &CopyControl<Process>) -> Result<List<FileNumber>, NoMemory>
    ensures { IfOk result (λ numbers. numbers ≡ each_at file_number 0 control.now.core.next) }
{
    let next = control.next();
    let mut numbers = List::new(alloc);
    for file in 0..control.files() {
        let next = next[usize::from(file)];
        numbers.push(FileNumber { file, next })?;
    }
    Ok(numbers)
}

/// The requests that wait.
fn waiting_requests(alloc: Global, waiting: &Waiting) -> Result<List<Request>, NoMemory>
    ensures { IfOk result (λ requests. requests ≡ waiting.now.requests) }
{
    let mut requests = List::new(alloc);
    for place in 0..waiting.len() {
        add_waiting(waiting, place, &mut requests)?;
    }
    Ok(requests)
}

/// The request at a place of those that wait is added to `requests`, if there is one.
fn add_waiting(
    waiting: &Waiting,
    place: usize,
    requests: &mut List<Request>,
) -> Result<(), NoMemory>
    ensures { OnOk result (requests.new ≡ requests.old ++ option_to_list (slice_get waiting.now.requests place)) }
{
    match waiting.at(place) {
        None => Ok(()),
        Some(request) => {
            requests.push(copy_request(request))?;
            Ok(())
        }
    }
}
