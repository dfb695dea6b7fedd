ghost use Rattle.std.specs.Prelude.{◌≡◌, ◌∷◌, length, OnOk};
ghost use Rattle.tal_tree.specs.declared.act.Act.TheVariants as act;
ghost use Rattle.tal_tree.specs.declared.act.Shown.TheVariants as shown;
ghost use Rattle.gd_words.specs.Ranges.{HasNext};

use crate::records::Records;
use gd_words::{NoMemory, Reply, Request};
use tal_tree::{Act, Shown};

impl Records {
    /// A terminal enters a request.
    pub fn enter(&mut self, terminal: u8, request: &Request) -> Result<(), NoMemory>
        ensures { OnOk result (self.new ≡ record self.old
            { requests = request.now ∷ self.old.requests; kept = act.Enter terminal ∷ self.old.kept }) }
    {
        self.requests.add(request)?;
        self.kept.keep(Act::Enter(terminal))?;
        Ok(())
    }

    /// A terminal prints a reply.
    pub fn print(&mut self, terminal: u8, reply: Reply) -> Result<(), NoMemory>
        requires shown { HasNext (length self.old.shown) }
        ensures { OnOk result (self.new ≡ record self.old {
          shown = shown.Reply terminal reply.number reply.words ∷ self.old.shown;
          kept = act.Print terminal ∷ self.old.kept;
        }) }
    {
        let Reply {
            process: _,
            opener: _,
            number,
            words,
        } = reply;
        self.shown.add(Shown::Reply {
            terminal,
            number,
            words,
        })?;
        self.kept.keep(Act::Print(terminal))?;
        Ok(())
    }
}
