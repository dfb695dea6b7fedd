//! Laws of the layout.
ghost use Rattle.std.specs.Prelude.{◌≡◌, ℤ, List, Some, None, false};
ghost use Rattle.change_layout.specs.tal_tree.specs.declared.site.Site.{Site};
ghost use Rattle.message_layout.specs.Layout.{words_of, Fits, IsWithin};
ghost use Rattle.message_layout.specs.Messages.{NodeMessage, is_known};
ghost use Rattle.message_layout.specs.Reading.{node_message_in, understood};

/// A message that keeps to the layout is read back from its words.
pub fn written_words_are_read()
    ensures { (message : NodeMessage) → IsWithin message → node_message_in (words_of message) ≡ Some message }
{}

/// What is read from words has these words, and keeps to the layout. So words that no message has tell none.
pub fn what_is_read_was_written()
    ensures { (words : List ℤ) (message : NodeMessage) → node_message_in words ≡ Some message
        → (words_of message ≡ words) × IsWithin message }
{}

/// Two messages with the same words are the same.
pub fn words_tell_messages_apart()
    ensures { (one : NodeMessage) (other : NodeMessage) → IsWithin one → IsWithin other → words_of one ≡ words_of other
        → one ≡ other }
{}

/// A site takes the words of a message for that message where it has all that the message names, and drops it
/// otherwise. What it takes words for is known to it.
pub fn a_site_drops_what_it_has_not()
    ensures known { (site : Site) (message : NodeMessage) → Fits site message
        → understood site (words_of message) ≡ Some message }
    ensures dropped { (site : Site) (message : NodeMessage) → IsWithin message → is_known site message ≡ false
        → understood site (words_of message) ≡ None }
    ensures only { (site : Site) (words : List ℤ) (message : NodeMessage) → understood site words ≡ Some message
        → (words_of message ≡ words) × Fits site message }
{}
