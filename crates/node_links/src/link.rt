ghost use Rattle.std.specs.Prelude.{◌≡◌, ◌↔◌, ok_or, IsOk, IsSome, IfErr};
ghost use Rattle.node_links.specs.declared.link.LinkFault.TheVariants.{NoSuchLink};
ghost use Rattle.node_links.specs.Linking.{asked_by, arrived_by, side_after_reply, read, with_side, reply_of};
ghost use Rattle.node_links.specs.Linking.{is_wanted};

use gd_words::{Request, Words};

/// A link and when it was opened: one that was opened later has a greater number here, and no two have the same.
#[derive(Drop)]
pub struct Link {
    pub opened: u64,
    pub side: Side,
}

/// The requester's link keeps its request and the reply, once that came; the server's link its request, and whether the
/// server has read it.
#[derive(Drop)]
pub enum Side {
    Asked {
        request: Request,
        reply: Option<Words>,
    },
    Arrived {
        request: Request,
        read: bool,
    },
}

/// Why a call on a link did nothing: no link of that kind is open under the number, or its reply hasn't come.
#[derive(Clone, Copy, PartialEq, Eq)]
pub enum LinkFault {
    NoSuchLink,
    NotAnswered,
}

/// Which server's links are looked for: those of a process that aren't read yet, or those of one request.
#[derive(Clone, Copy)]
pub(crate) enum Wanted {
    Unread {
        process: u8,
    },
    Of {
        process: u8,
        opener: u16,
        number: u32,
    },
}

impl Link {
    /// The reply came for a requester's link. Where one came before, that one stays.
    pub(crate) fn keep_reply(&mut self, words: Words) -> Result<(), LinkFault>
        ensures open { IsOk result ↔ IsSome (asked_by self.old.side) }
        ensures fault { IfErr result (λ fault. fault ≡ NoSuchLink) }
        ensures after { self.new ≡ with_side (side_after_reply words) self.old }
    {
        match &mut self.side {
            Side::Asked { request: _, reply } => {
                if reply.is_none() {
                    *reply = Some(words);
                }
                Ok(())
            }
            Side::Arrived {
                request: _,
                read: _,
            } => Err(LinkFault::NoSuchLink),
        }
    }

    /// The request of a server's link, which is read from now on.
    pub(crate) fn read(&mut self) -> Result<Request, LinkFault>
        ensures answer { result ≡ ok_or (arrived_by self.old.side) NoSuchLink }
        ensures after { self.new ≡ with_side read self.old }
    {
        match &mut self.side {
            Side::Asked {
                request: _,
                reply: _,
            } => Err(LinkFault::NoSuchLink),
            Side::Arrived { request, read } => {
                *read = true;
                Ok(copy_of(request))
            }
        }
    }

    /// The reply that came for a requester's link, copied.
    pub(crate) fn reply(&self) -> Result<Words, LinkFault>
        ensures { result ≡ reply_of self.now.side }
    {
        match &self.side {
            Side::Asked { request: _, reply } => match reply {
                Some(words) => Ok(words.copy()),
                None => Err(LinkFault::NotAnswered),
            },
            Side::Arrived {
                request: _,
                read: _,
            } => Err(LinkFault::NoSuchLink),
        }
    }

    /// Whether the link is one of those looked for.
    pub(crate) fn is(&self, wanted: Wanted) -> bool
        ensures { result ≡ is_wanted wanted self.now.side }
    {
        match &self.side {
            Side::Asked {
                request: _,
                reply: _,
            } => false,
            Side::Arrived { request, read } => match wanted {
                Wanted::Unread { process } => request.process == process && !*read,
                Wanted::Of {
                    process,
                    opener,
                    number,
                } => {
                    request.process == process
                        && request.opener == opener
                        && request.number == number
                }
            },
        }
    }
}

// A copy, which takes no memory.
fn copy_of(request: &Request) -> Request
    ensures { result ≡ request.now }
{
    Request {
        process: request.process,
        opener: request.opener,
        number: request.number,
        words: request.words.copy(),
    }
}
