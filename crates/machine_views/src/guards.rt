//! Worked values of what is told.
ghost use Rattle.std.specs.Prelude.{◌≡◌, true, false, [], ◌∷◌, map, pos, replicate, Some};
ghost use Rattle.process_semantics.specs.declared.point.Point.TheVariants.{Await};
ghost use Rattle.world_semantics.specs.declared.role.Role.TheVariants.{Acting, Watching};
ghost use Rattle.machine_views.specs.Examples.{fourth_next, sector, sevens, standing, told, turned_pair, written_pair};
ghost use Rattle.machine_views.specs.Views.{awaited_view_at, copy_views, each_at, downs_in, sector_views};
ghost use Rattle.site_machine.specs.Stopped.{stopped_from};

/// The processors 1 and 3 have stopped, and the marks are told by their nodes and then by their processors.
pub fn stops_and_marks_are_in_order()
    ensures stopped { stopped_from 0 (false ∷ true ∷ false ∷ true ∷ []) ≡ 1 ∷ 3 ∷ [] }
    ensures down { downs_in (standing 16 2 ∷ standing 0 2 ∷ standing 16 1 ∷ [])
        ≡ told 0 2 ∷ told 16 1 ∷ told 16 2 ∷ [] }
{}

/// The copy in the lower processor is told first, be it the first of its process or not.
pub fn copies_are_in_order()
    ensures processors { map (λ copy. copy.processor) (each_at copy_views 0 (turned_pair ∷ [])) ≡ 0 ∷ 1 ∷ [] }
    ensures roles { map (λ copy. copy.role) (each_at copy_views 0 (turned_pair ∷ [])) ≡ Watching ∷ Acting ∷ [] }
{}

/// The reply that is awaited is that of the number before the next one.
pub fn the_last_request_is_awaited()
    ensures { awaited_view_at fourth_next Await ≡ Some (record { file = 0; number = 3 }) }
{}

/// Sectors are told with the number of the process in its place.
pub fn sectors_are_in_order()
    ensures { each_at sector_views 0 (turned_pair ∷ written_pair ∷ [])
        ≡ sector 1 0 (replicate 8 (pos 0)) 0 ∷ sector 1 1 sevens 5 ∷ [] }
{}
