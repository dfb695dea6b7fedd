use alive_regroup::ProcessorSet;
use change_layout::ChangeMessage;
use checkpoint_image::{ImageMessage, TakenMessage};
use gd_words::{Reply, Request};

/// A message from a node to a node, as it is read.
#[derive(Drop)]
pub enum NodeMessage {
    Asking(Request),
    Replying(Reply),
    Checkpointing(ImageMessage),
    Taking(TakenMessage),
    /// A checkpoint as what changed since the one before it.
    Changing(ChangeMessage),
    /// The processors that are silent to a node, and its number.
    Reporting { node: u8, silent: ProcessorSet },
    /// This processor is down.
    Declaring(u8),
}
