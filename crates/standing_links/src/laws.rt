//! Laws of links that stand for what a node has to do.
ghost use Rattle.std.specs.Prelude.{◌≡◌, ◌≢◌, ℕ, ℤ, [], List, false};
ghost use Rattle.gd_words.specs.Members.{IsAmong};
ghost use Rattle.gd_words.specs.declared.message.Request.{Request};
ghost use Rattle.node_links.specs.declared.link.Side.TheVariants.{Arrived, Asked};
ghost use Rattle.node_links.specs.Linking.{Held, Opens, Table, arrived_at, asked_at, changed_at, read};
ghost use Rattle.node_links.specs.Linking.{side_after_reply, without};
ghost use Rattle.standing_links.specs.Needs.{Adds, Drops, Name, Needs, name_of, nothing};
ghost use Rattle.standing_links.specs.Standing.{IsTheOnly, IsTheOnlyNamed, StandFor};

/// Where nothing is to be done, no link needs to be open.
pub fn no_links_stand_for_nothing()
    ensures { StandFor nothing [] }
{}

/// A request that comes to wait, and has no server's link, is given one.
pub fn a_request_that_waits_is_given_a_link()
    ensures { (needs : Needs) (waiting : List Request) (request : Request) (old new : Held) (number : ℕ)
        → StandFor needs old.table → Adds request needs.waiting waiting
        → ((other : ℕ) → arrived_at old.table other ≢ Some request) → Opens old new (Arrived request false) number
        → StandFor (record needs { waiting = waiting }) new.table }
{}

/// A request that waited and is dropped has its link ended.
pub fn a_dropped_request_ends_its_link()
    ensures { (needs : Needs) (waiting : List Request) (request : Request) (table : Table) (number : ℕ)
        → StandFor needs table → Drops request needs.waiting waiting
        → IsTheOnly (arrived_at table) request number
        → StandFor (record needs { waiting = waiting }) (without number table) }
{}

/// A request that is taken keeps its link.
pub fn a_request_that_is_taken_keeps_its_link()
    ensures { (needs : Needs) (waiting : List Request) (in_hand : List Name) (request : Request) (table : Table)
        → StandFor needs table → Drops request needs.waiting waiting → Adds (name_of request) needs.in_hand in_hand
        → StandFor (record needs { waiting = waiting; in_hand = in_hand }) table }
{}

/// A reply ends the link of the request that was in hand, if one is open for it; none of that name waits.
pub fn a_reply_ends_the_link_of_what_was_in_hand()
    ensures linked { (needs : Needs) (in_hand : List Name) (request : Request) (table : Table) (number : ℕ)
        → StandFor needs table → Drops (name_of request) needs.in_hand in_hand
        → ((other : Request) → IsAmong other needs.waiting → name_of other ≢ name_of request)
        → IsTheOnlyNamed table request number
        → StandFor (record needs { in_hand = in_hand }) (without number table) }
    ensures unlinked { (needs : Needs) (in_hand : List Name) (request : Request) (table : Table)
        → StandFor needs table → Drops (name_of request) needs.in_hand in_hand
        → ((number : ℕ) (other : Request) → arrived_at table number ≡ Some other → name_of other ≢ name_of request)
        → StandFor (record needs { in_hand = in_hand }) table }
{}

/// A request that is sent is linked, if it isn't.
pub fn a_request_that_is_sent_is_linked()
    ensures { (needs : Needs) (awaited : List Request) (request : Request) (old new : Held) (number : ℕ)
        → StandFor needs old.table → Adds request needs.awaited awaited
        → ((other : ℕ) → asked_at old.table other ≢ Some request) → Opens old new (Asked request None) number
        → StandFor (record needs { awaited = awaited }) new.table }
{}

/// A reply that is got ends the link of its request.
pub fn a_reply_that_is_got_breaks_the_link()
    ensures { (needs : Needs) (awaited : List Request) (request : Request) (table : Table) (number : ℕ)
        → StandFor needs table → Drops request needs.awaited awaited
        → IsTheOnly (asked_at table) request number
        → StandFor (record needs { awaited = awaited }) (without number table) }
{}

/// Neither reading a link nor keeping a reply at it changes what the links stand for.
pub fn links_stand_as_they_are_read_and_answered()
    ensures read { (needs : Needs) (table : Table) (number : ℕ) → StandFor needs table
        → StandFor needs (changed_at number read table) }
    ensures replied { (needs : Needs) (table : Table) (number : ℕ) (words : List ℤ) → StandFor needs table
        → StandFor needs (changed_at number (side_after_reply words) table) }
{}
