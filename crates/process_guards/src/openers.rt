ghost use Rattle.std.specs.Prelude.{◌≡◌, [], ◌∷◌, Some, None};
ghost use Rattle.tal_tree.specs.declared.site.Who.TheVariants.{File, Terminal};
ghost use Rattle.plain_semantics.specs.Openers.{opener_of, openers_of};
ghost use Rattle.process_guards.specs.Machines.{opened_site, shared_site};

/// The openers of a process are the files that are opened to its name, and then the terminals that ask it. `$RECEIVE`
/// opens none.
pub fn files_come_before_terminals()
    ensures disc { openers_of opened_site 0
        ≡ record { who = File 1 1; depth = 3 } ∷ record { who = Terminal 1; depth = 1 } ∷ [] }
    ensures pair { openers_of opened_site 1 ≡ record { who = Terminal 0; depth = 1 } ∷ [] }
    ensures no_process { openers_of opened_site 2 ≡ [] }
{}

/// An opener has its place among its server's.
pub fn an_opener_has_its_place()
    ensures terminal { opener_of opened_site (Terminal 1) ≡ Some (record { server = 0; place = 1 }) }
    ensures file { opener_of opened_site (File 1 1) ≡ Some (record { server = 0; place = 0 }) }
    ensures receive { opener_of opened_site (File 1 0) ≡ None }
    ensures no_file { opener_of opened_site (File 1 2) ≡ None }
    ensures no_terminal { opener_of opened_site (Terminal 2) ≡ None }
{}

/// Openers stand in the order of the processes, of each process's OPENs, and of the terminals.
pub fn openers_stand_in_the_order_of_the_deck()
    ensures all { openers_of shared_site 2 ≡ record { who = File 0 0; depth = 2 }
        ∷ record { who = File 0 1; depth = 4 } ∷ record { who = File 1 1; depth = 3 }
        ∷ record { who = Terminal 0; depth = 1 } ∷ record { who = Terminal 1; depth = 1 } ∷ [] }
    ensures second_file { opener_of shared_site (File 0 1) ≡ Some (record { server = 2; place = 1 }) }
    ensures second_process { opener_of shared_site (File 1 1) ≡ Some (record { server = 2; place = 2 }) }
    ensures second_terminal { opener_of shared_site (Terminal 1) ≡ Some (record { server = 2; place = 4 }) }
{}
