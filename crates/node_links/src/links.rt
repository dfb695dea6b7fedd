ghost use Rattle.std.specs.Prelude.{◌≡◌, ◌⊎◌, ◌≤◌, ◌<◌, ◌-◌, ◌^◌, ◌↔◌, [], ok_or, option_map, option_copied, Some};
ghost use Rattle.std.specs.Prelude.{None, false, IsOk, IsSome, IfOk, IfErr, IfSome, IfNone, OnOk, OnErr};
ghost use Rattle.gd_words.specs.Ranges.{HasNextLong};
ghost use Rattle.node_links.specs.declared.link.Side.TheVariants.{Asked, Arrived};
ghost use Rattle.node_links.specs.declared.link.LinkFault.TheVariants.{NoSuchLink};
ghost use Rattle.node_links.specs.Linking.{at, asked_at, arrived_at, reply_at, reply_to, side_after_reply, read};
ghost use Rattle.node_links.specs.Linking.{changed_at, without, Opens, IsOldest, NonePasses, with_table, is_unread};
ghost use Rattle.node_links.specs.Linking.{is_of, is_wanted};

use crate::link::{Link, LinkFault, Side, Wanted};
use gd_words::{NoMemory, Reply, Request, Words};
use slab::Slab;
use std::alloc::Global;
use std::marker::Model;

/// The open links of a node. Requesters' links and servers' links stand in one table, and a call on a link of the other
/// kind finds none. A number is used again once its link has ended. A link may be opened while the count of those
/// opened, which has 64 bits, has a next.
#[derive(Drop)]
pub struct Links {
    links: Slab<Link>,
    opened: u64,
}

impl Model for Links {
    ghost use Rattle.node_links.specs.Linking.{Held, IsTimed};

    ghost Value = { Held };

    ghost view = { λ links. record { table = links.links.slots; opened = links.opened } };

    ghost invariant = { λ links. IsTimed links.links.slots links.opened };
}

impl Links {
    /// No link is open.
    pub fn new(alloc: Global) -> Links
        ensures { result ≡ record { table = []; opened = 0 } }
    {
        Links {
            links: Slab::new(alloc),
            opened: 0,
        }
    }

    /// Opens the link of a requester that sends this request, and gives its number.
    pub fn link(&mut self, request: Request) -> Result<usize, NoMemory>
        requires { HasNextLong self.old.opened }
        ensures opens { IfOk result (Opens self.old self.new (Asked request None)) }
        ensures err { OnErr result (self.new ≡ self.old) }
    {
        self.open(Side::Asked {
            request,
            reply: None,
        })
    }

    /// The request of a requester's link; none where no such link is open.
    pub fn requested(&self, number: usize) -> Option<&Request>
        ensures { option_copied result ≡ asked_at self.now.table number }
    {
        match &self.links.get(number)?.side {
            Side::Asked { request, reply: _ } => Some(request),
            Side::Arrived {
                request: _,
                read: _,
            } => None,
        }
    }

    /// The reply came for a requester's link. Where one came before, that one stays. `NoSuchLink` where no requester's
    /// link is open under the number.
    pub fn replied(&mut self, number: usize, words: Words) -> Result<(), LinkFault>
        ensures open { IsOk result ↔ IsSome (asked_at self.old.table number) }
        ensures fault { IfErr result (λ fault. fault ≡ NoSuchLink) }
        ensures after { OnOk result (self.new ≡ with_table (changed_at number (side_after_reply words)) self.old) }
        ensures err { OnErr result (self.new ≡ self.old) }
    {
        match self.links.get_mut(number) {
            Some(link) => link.keep_reply(words),
            None => Err(LinkFault::NoSuchLink),
        }
    }

    /// Gives the reply that came for a requester's link, and ends the link. `NotAnswered` where none came, and the link
    /// stays open; `NoSuchLink` where no requester's link is open under the number.
    pub fn break_link(&mut self, number: usize) -> Result<Words, LinkFault>
        ensures answer { result ≡ reply_at self.old.table number }
        ensures ends { OnOk result (self.new ≡ with_table (without number) self.old) }
        ensures err { OnErr result (self.new ≡ self.old) }
    {
        let words = match self.links.get(number) {
            Some(link) => link.reply()?,
            None => return Err(LinkFault::NoSuchLink),
        };
        self.links.try_remove(number);
        Ok(words)
    }

    /// Opens the link of a server to which this request came, and gives its number.
    pub fn arrived(&mut self, request: Request) -> Result<usize, NoMemory>
        requires { HasNextLong self.old.opened }
        ensures opens { IfOk result (Opens self.old self.new (Arrived request false)) }
        ensures err { OnErr result (self.new ≡ self.old) }
    {
        self.open(Side::Arrived {
            request,
            read: false,
        })
    }

    /// The oldest link of a process that the process hasn't read yet.
    pub fn listen(&self, process: u8) -> Option<usize>
        ensures oldest { IfSome result (IsOldest (is_unread process) self.now.table) }
        ensures none { IfNone result (NonePasses (is_unread process) self.now.table) }
    {
        self.oldest(Wanted::Unread { process })
    }

    /// The request of a server's link, which is read from now on; one that was read before gives it again. `NoSuchLink`
    /// where no server's link is open under the number.
    pub fn read_link(&mut self, number: usize) -> Result<Request, LinkFault>
        ensures answer { result ≡ ok_or (arrived_at self.old.table number) NoSuchLink }
        ensures after { OnOk result (self.new ≡ with_table (changed_at number read) self.old) }
        ensures err { OnErr result (self.new ≡ self.old) }
    {
        match self.links.get_mut(number) {
            Some(link) => link.read(),
            None => Err(LinkFault::NoSuchLink),
        }
    }

    /// The reply to the request of a server's link, which ends, read before or not. `NoSuchLink` where no server's link
    /// is open under the number.
    pub fn write_link(&mut self, number: usize, words: &Words) -> Result<Reply, LinkFault>
        ensures answer { result ≡ ok_or (option_map (reply_to words.now) (arrived_at self.old.table number))
            NoSuchLink }
        ensures ends { OnOk result (self.new ≡ with_table (without number) self.old) }
        ensures err { OnErr result (self.new ≡ self.old) }
    {
        let reply = match self.served(number) {
            Some(request) => reply_to(request, words),
            None => return Err(LinkFault::NoSuchLink),
        };
        self.links.try_remove(number);
        Ok(reply)
    }

    /// The oldest open link of a server for this request.
    pub fn link_of(&self, process: u8, opener: u16, number: u32) -> Option<usize>
        ensures oldest { IfSome result (IsOldest (is_of process opener number) self.now.table) }
        ensures none { IfNone result (NonePasses (is_of process opener number) self.now.table) }
    {
        self.oldest(Wanted::Of {
            process,
            opener,
            number,
        })
    }

    /// Ends a server's link without a reply. `NoSuchLink` where no server's link is open under the number.
    pub fn end_link(&mut self, number: usize) -> Result<(), LinkFault>
        ensures open { IsOk result ↔ IsSome (arrived_at self.old.table number) }
        ensures fault { IfErr result (λ fault. fault ≡ NoSuchLink) }
        ensures ends { OnOk result (self.new ≡ with_table (without number) self.old) }
        ensures err { OnErr result (self.new ≡ self.old) }
    {
        if self.served(number).is_none() {
            return Err(LinkFault::NoSuchLink);
        }
        self.links.try_remove(number);
        Ok(())
    }

    /// The request of a server's link; none where no such link is open.
    fn served(&self, number: usize) -> Option<&Request>
        ensures { option_copied result ≡ arrived_at self.now.table number }
    {
        match &self.links.get(number)?.side {
            Side::Asked {
                request: _,
                reply: _,
            } => None,
            Side::Arrived { request, read: _ } => Some(request),
        }
    }

    fn open(&mut self, side: Side) -> Result<usize, NoMemory>
        requires { HasNextLong self.old.opened }
        ensures opens { IfOk result (Opens self.old self.new side) }
        ensures err { OnErr result (self.new ≡ self.old) }
    {
        let opened = self.opened;
        let number = self.links.insert(Link { opened, side })?;
        self.opened = opened + 1;
        Ok(number)
    }

    fn oldest(&self, wanted: Wanted) -> Option<usize>
        ensures oldest { IfSome result (IsOldest (is_wanted wanted) self.now.table) }
        ensures none { IfNone result (NonePasses (is_wanted wanted) self.now.table) }
    {
        let mut oldest: Option<Seen> = None;
        for (number, link) in self.links.iter() {
            if link.is(wanted) {
                oldest = Some(older(oldest, number, link.opened));
            }
        }
        Some(oldest?.number)
    }
}

/// A link that was seen, and when it was opened.
#[derive(Clone, Copy)]
struct Seen {
    number: usize,
    opened: u64,
}

/// The older one of the link seen so far, if there is one, and this link.
fn older(seen: Option<Seen>, number: usize, opened: u64) -> Seen
    ensures which { (seen ≡ Some result) ⊎ ((result.number ≡ number) × (result.opened ≡ opened)) }
    ensures no_later { result.opened ≤ opened }
    ensures before { IfSome seen (λ before. result.opened ≤ before.opened) }
{
    match seen {
        Some(seen) if seen.opened <= opened => seen,
        _ => Seen { number, opened },
    }
}

fn reply_to(request: &Request, words: &Words) -> Reply
    ensures { result ≡ reply_to words.now request.now }
{
    Reply {
        process: request.process,
        opener: request.opener,
        number: request.number,
        words: words.copy(),
    }
}
