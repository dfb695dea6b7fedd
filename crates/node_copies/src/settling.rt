ghost use Rattle.std.specs.Prelude.{◌≡◌, ◌++◌, length, map, OnOk};
ghost use Rattle.checkpoint_image.specs.Receive.{all_repeated, still_waiting};
ghost use Rattle.kept_acts.specs.world_semantics.specs.Messages.{Replying, sent_at};

use file_calls::{Receive, Waiting, settling_repeats_all_kept_replies};
use gd_words::{List, NoMemory};
use sendings::{Message, Sending};

/// Settles the requests that wait at a copy that takes over: the replies kept to them are added to `told`, as sent by
/// the node.
pub(crate) fn settle(
    node: u8,
    waiting: &mut Waiting,
    receive: &Receive,
    told: &mut List<Sending>,
) -> Result<(), NoMemory>
    requires { length receive.now.depths ≡ waiting.old.openers }
    ensures told { OnOk result (told.new ≡ told.old
        ++ sent_at node (map Replying (all_repeated receive.now.table waiting.old.requests))) }
    ensures requests { OnOk result (waiting.new.requests ≡ still_waiting receive.now.table waiting.old.requests) }
    ensures openers { waiting.new.openers ≡ waiting.old.openers }
{
    settling_repeats_all_kept_replies();
    while let Some(reply) = waiting.settle(receive) {
        told.push(Sending::new(node, Message::Replying(reply)))?;
    }
    Ok(())
}
