//! Laws of letters that were sent.
ghost use Rattle.std.specs.Prelude.{◌<◌, ℕ, List, length};
ghost use Rattle.gd_words.specs.Members.{IsAmong};
ghost use Rattle.tal_tree.specs.declared.site.Site.{Site};
ghost use Rattle.schedule.specs.declared.event.Event.{Event};
ghost use Rattle.computed_changes.specs.Laws.{IsSent, FitsWhereItComes};
ghost use Rattle.awaited_requests.specs.takeover_laws.specs.Fit.{IsFit};
ghost use Rattle.awaited_requests.specs.letters.specs.Posts.{Post, HasPlayed};
ghost use Rattle.awaited_requests.specs.letters.specs.Routes.{Letter};

/// Of a fit site each letter that was sent and may come carries a message that was sent in the world: a request or a
/// reply among those of the world, and a checkpoint, or that it was taken, among those of the process that it names. So
/// what is computed for it is permitted where it is handed over, however late or often.
pub fn letters_were_sent()
    ensures { (site : Site) (events : List Event) (post : Post) (letter : Letter) → IsFit site
        → length events < 4294967296 → HasPlayed site events post
        → IsAmong letter post.sent → IsSent post.world letter.message }
{}

/// Of a fit site each checkpoint that such a letter carries fits each copy of its process, wherever it comes: it names
/// files that are there, and its receive table can be that of the process. So nothing else than what is computed is
/// permitted there.
pub fn checkpoints_that_come_fit()
    ensures { (site : Site) (events : List Event) (post : Post) (letter : Letter) (node : ℕ) → IsFit site
        → length events < 4294967296 → HasPlayed site events post
        → IsAmong letter post.sent → FitsWhereItComes site post.world node letter.message }
{}
