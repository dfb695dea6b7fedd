ghost use Rattle.std.specs.Prelude.{◌≡◌, List};
ghost use Rattle.gd_words.specs.declared.message.Reply.{Reply};
ghost use Rattle.gd_words.specs.declared.message.Request.{Request};
ghost use Rattle.checkpoint_image.specs.Receive.{all_repeated, still_waiting};
ghost use Rattle.checkpoint_image.specs.declared.receive.ReceiveBlock.{ReceiveBlock};
ghost use Rattle.file_calls.specs.Takeover.{Settles};

/// A takeover settles its waiting requests one kept reply after another: so all kept replies are sent again, in the
/// order of the requests, and those wait on that a takeover leaves waiting. It comes to an end, and there is no other.
pub fn settling_repeats_all_kept_replies()
    ensures comes { (table : ReceiveBlock) (waiting : List Request)
        → Settles table waiting (all_repeated table waiting) (still_waiting table waiting) }
    ensures replies { (table : ReceiveBlock) (waiting end : List Request) (replies : List Reply)
        → Settles table waiting replies end → replies ≡ all_repeated table waiting }
    ensures rest { (table : ReceiveBlock) (waiting end : List Request) (replies : List Reply)
        → Settles table waiting replies end → end ≡ still_waiting table waiting }
{}
