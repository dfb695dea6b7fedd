ghost use Rattle.std.specs.Prelude.{◌≡◌, ℕ, List, is_some};
ghost use Rattle.tal_tree.specs.declared.site.Site.{Site};
ghost use Rattle.disc_device.specs.Sectors.{Stored};
ghost use Rattle.process_control.specs.computed_changes.specs.Fitting.{depths_of};
ghost use Rattle.node_copies.specs.Acting.{own_in};
ghost use Rattle.kept_acts.specs.world_semantics.specs.Records as happened;

use crate::one::NodeCopy;
use process_semantics::Point;

impl NodeCopy {
    /// Whether there is an act of its own that it can do at this point.
    pub fn can_act(&self, stands: Point) -> bool
        ensures { (site : Site) (number : ℕ) (sectors : List Stored) (records : happened.Records)
            → self.now.depths ≡ depths_of site number
            → result ≡ is_some (own_in site number (record { one = self.now; sectors = sectors; records = records })
            stands) }
    {
        match stands {
            Point::Inner | Point::Ask | Point::Device => true,
            Point::Take => self.can_take(),
            Point::Answer => self.can_answer(),
            Point::Await | Point::AtCheckpoint | Point::Ended => false,
        }
    }

    fn can_take(&self) -> bool
        ensures { (site : Site) (number : ℕ) (sectors : List Stored) (records : happened.Records)
            → result ≡ is_some (own_in site number (record { one = self.now; sectors = sectors; records = records })
            Point.Take) }
    {
        self.waiting.wakes(self.control.receive())
    }

    fn can_answer(&self) -> bool
        ensures { (site : Site) (number : ℕ) (sectors : List Stored) (records : happened.Records)
            → self.now.depths ≡ depths_of site number
            → result ≡ is_some (own_in site number (record { one = self.now; sectors = sectors; records = records })
            Point.Answer) }
    {
        let hand = self.control.receive().in_hand();
        is_there(hand)
    }
}

fn is_there(hand: Option<u16>) -> bool
    ensures { result ≡ is_some hand }
{
    hand.is_some()
}
