ghost use Rattle.std.specs.Prelude.{◌≡◌, ◌<◌, map, length, slice_get, slice_set, option_map, Some, IfOk};
ghost use Rattle.node_links.specs.Routing.{first_route, other_processor, route_after_down, route_set_to};

use gd_words::NoMemory;
use std::alloc::Global;
use std::marker::Model;
use tal_tree::{ProcessSpec, Site};

/// The processors of a process's two copies, and the one of them to which its requests go.
#[derive(Clone, Copy, PartialEq, Eq)]
pub struct Route {
    pub primary: u8,
    pub backup: u8,
    pub goes_to: u8,
}

/// The routes of a site's processes, in their order. Only `new` takes memory.
#[derive(Drop)]
pub struct Routes {
    routes: Vec<Route>,
}

impl Model for Routes {
    ghost use Rattle.std.specs.Prelude.{List};
    ghost use Rattle.node_links.specs.declared.routes.Route.{Route};

    ghost Value = { List Route };

    ghost view = { λ routes. routes.routes.items };
}

impl Routes {
    /// The routes at the beginning: those to the primary processors.
    pub fn new(alloc: Global, site: &Site) -> Result<Routes, NoMemory>
        ensures { IfOk result (λ routes. routes ≡ map first_route site.now.processes) }
    {
        let mut routes = Vec::new(alloc);
        for process in site.processes.as_slice() {
            routes.push(Route::first(process))?;
        }
        Ok(Routes { routes })
    }

    /// The processor to which the requests of a process go.
    pub fn route(&self, process: u8) -> u8
        requires { process < length self.now }
        ensures { option_map (λ route. route.goes_to) (slice_get self.now process) ≡ Some result }
    {
        self.routes[usize::from(process)].goes_to
    }

    /// The requests of a process go to this processor from now on, as after a reload.
    pub fn set(&mut self, process: u8, to: u8)
        requires { process < length self.old }
        ensures { option_map (λ route. slice_set self.old process (route_set_to to route)) (slice_get self.old process)
            ≡ Some self.new }
    {
        self.routes[usize::from(process)].goes_to = to;
    }

    /// A processor is down: the requests that went to it go to the process's other processor.
    pub fn down(&mut self, processor: u8)
        ensures { self.new ≡ map (route_after_down processor) self.old }
    {
        for route in self.routes.iter_mut() {
            *route = route.turned(processor);
        }
    }
}

impl Route {
    fn first(process: &ProcessSpec) -> Route
        ensures { result ≡ first_route process.now }
    {
        Route {
            primary: process.primary,
            backup: process.backup,
            goes_to: process.primary,
        }
    }

    /// After a processor is down.
    fn turned(&self, processor: u8) -> Route
        ensures { result ≡ route_after_down processor self.now }
    {
        let goes_to = if self.goes_to == processor {
            self.other_processor()
        } else {
            self.goes_to
        };
        Route { goes_to, ..*self }
    }

    fn other_processor(&self) -> u8
        ensures { result ≡ other_processor self.now }
    {
        if self.goes_to == self.primary {
            self.backup
        } else {
            self.primary
        }
    }
}
