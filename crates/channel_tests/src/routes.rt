ghost use Rattle.std.specs.Prelude.{◌≡◌, length, IfOk};

use gd_words::{List, Name};
use node_links::Routes;
use std::alloc::Global;
use std::test::Fail;
use tal_tree::{Kind, ProcessSpec, Site};

fn disc(text: &[u8], primary: u8, backup: u8) -> Result<ProcessSpec, &'static str> {
    Ok(ProcessSpec {
        name: Name::read(text).ok_or("no name")?,
        primary,
        backup,
        what: Kind::Disc {
            sectors: 1,
            mirrored: false,
        },
    })
}

/// Three discs on three processors.
fn site(alloc: Global) -> Result<Site, Fail>
    ensures { IfOk result (λ site. length site.processes ≡ 3) }
{
    let mut processes = List::new(alloc);
    processes.push(disc(b"$A", 0, 1)?)?;
    processes.push(disc(b"$B", 1, 2)?)?;
    processes.push(disc(b"$C", 2, 0)?)?;
    Ok(Site {
        processors: 3,
        processes,
        terminals: List::new(alloc),
    })
}

#[test]
fn a_route_turns_away_from_a_processor_that_is_down(rt: HostRuntime) -> Result<(), Fail> {
    let alloc = rt.alloc();
    let site = site(alloc)?;
    let mut routes = Routes::new(alloc, &site)?;
    assert_eq!(rt; routes.route(0), 0);
    assert_eq!(rt; routes.route(1), 1);
    assert_eq!(rt; routes.route(2), 2);
    routes.down(1);
    assert_eq!(rt; routes.route(0), 0);
    assert_eq!(rt; routes.route(1), 2);
    assert_eq!(rt; routes.route(2), 2);
    routes.down(2);
    assert_eq!(rt; routes.route(1), 1);
    assert_eq!(rt; routes.route(2), 0);
    Ok(())
}

#[test]
fn a_route_is_set_to_a_processor(rt: HostRuntime) -> Result<(), Fail> {
    let alloc = rt.alloc();
    let site = site(alloc)?;
    let mut routes = Routes::new(alloc, &site)?;
    routes.down(1);
    routes.set(1, 1);
    assert_eq!(rt; routes.route(0), 0);
    assert_eq!(rt; routes.route(1), 1);
    assert_eq!(rt; routes.route(2), 2);
    routes.down(1);
    assert_eq!(rt; routes.route(1), 2);
    Ok(())
}
