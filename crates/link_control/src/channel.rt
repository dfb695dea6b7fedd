ghost use Rattle.std.specs.Prelude.{◌≡◌, ◌<◌, ◌↔◌, IsTrue, List as Items, length, IfOk, OnOk, OnErr, Some, None};
ghost use Rattle.std.specs.Prelude.{if◌then◌else◌};
ghost use Rattle.packet_words.specs.gd_words.specs.Ranges.{HasNext};
ghost use Rattle.packet_words.specs.gd_words.specs.declared.limits.TheConstants.{MOST_RELOADS};
ghost use Rattle.packet_words.specs.declared.packet.PacketKind.TheVariants as kind;
ghost use Rattle.link_control.specs.Ends.{End, new_end, after_push, sent_by_push, after_packet, sent_by_packet};
ghost use Rattle.link_control.specs.Ends.{handed_by_packet, after_tick, sent_by_tick, after_down, alive_of, is_empty};
ghost use Rattle.link_control.specs.Ends.{HasNumberForPush, HasNumbersLeft, packet_outstanding, packet_of, is_kept};
ghost use Rattle.link_control.specs.Ends.{kept, message_of_piece, HasIncarnationLeft, end_after_reload};
ghost use Rattle.link_control.specs.Ends.{incarnation_after};
ghost use Rattle.link_control.specs.Ends.{is_current, is_of, is_own, next_end};

use crate::sender::Sender;
use packet_words::{BusName, Incarnation, Joiner, List, NoMemory, Packet, PacketKind, Piece};
use std::alloc::Global;
use std::marker::Model;

/// What a packet that came makes a channel send and hand over.
#[derive(Drop)]
pub struct Arrived {
    pub send: Option<Packet>,
    pub delivered: Option<List<i16>>,
}

/// A packet that is sent again, and over which bus.
#[derive(Drop)]
pub struct Resent {
    pub bus: BusName,
    pub packet: Packet,
}

/// One node's end of the channel with one node, which may be itself.
#[derive(Drop)]
pub struct Channel {
    from: u8,
    to: u8,
    incarnation: Incarnation,
    sender: Sender,
    kept: u32,
    joiner: Joiner,
    down: bool,
}

impl Model for Channel {
    ghost use Rattle.link_control.specs.Ends.{End};

    ghost Value = { End };

    ghost view = { λ channel. record {
      here = channel.from;
      there = channel.to;
      incarnation = channel.incarnation;
      sending = channel.sender;
      receiving = record { kept = channel.kept; part = channel.joiner };
      down = channel.down;
    } };
}

impl Channel {
    /// The end at `from` of a channel over which nothing has gone. Its packets bear the incarnation.
    pub fn new(alloc: Global, from: u8, to: u8, incarnation: Incarnation) -> Channel
        ensures { result ≡ new_end from to incarnation }
    {
        Channel {
            from,
            to,
            incarnation,
            sender: Sender::new(alloc),
            kept: 0,
            joiner: Joiner::new(alloc),
            down: false,
        }
    }

    /// Takes a message to be sent; it gives the packet that goes out now, over bus X. Without memory nothing changes.
    pub fn push(&mut self, message: List<i16>) -> Result<Option<Packet>, NoMemory>
        requires numbered { HasNumberForPush self.old }
        requires some { 0 < length message }
        ensures sent { IfOk result (λ packet. packet ≡ sent_by_push message self.old) }
        ensures after { OnOk result (self.new ≡ after_push message self.old) }
        ensures err { OnErr result (self.new ≡ self.old) }
    {
        if self.down {
            return Ok(None);
        }
        let was_idle = self.sender.is_idle();
        self.sender.push(message)?;
        if was_idle {
            Ok(self.outstanding())
        } else {
            Ok(None)
        }
    }

    /// Treats a packet that came from the other node. A piece that it sends goes over bus X, an acknowledgement over
    /// the bus by which the packet came. Without memory nothing changes.
    pub fn on_packet(&mut self, packet: &Packet) -> Result<Arrived, NoMemory>
        requires numbered { HasNext self.old.sending.numbered }
        requires kept { HasNext self.old.receiving.kept }
        ensures sent { IfOk result (λ arrived. arrived.send ≡ sent_by_packet packet.now self.old) }
        ensures delivered { IfOk result (λ arrived. arrived.delivered ≡ handed_by_packet packet.now self.old) }
        ensures after { OnOk result (self.new ≡ after_packet packet.now self.old) }
        ensures err { OnErr result (self.new ≡ self.old) }
    {
        if self.down {
            return Ok(Arrived {
                send: None,
                delivered: None,
            });
        }
        match &packet.kind {
            PacketKind::Alive => Ok(Arrived {
                send: None,
                delivered: None,
            }),
            PacketKind::Piece { number, piece } => {
                let delivered = self.keep(*number, piece)?;
                let send = self.answer(*number);
                Ok(Arrived { send, delivered })
            }
            PacketKind::Acknowledgement { number } => {
                let ended = self.sender.acknowledge(*number);
                let send = if ended { self.outstanding() } else { None };
                Ok(Arrived {
                    send,
                    delivered: None,
                })
            }
        }
    }

    /// Takes a tick of the node; it gives what is sent again.
    pub fn on_tick(&mut self) -> Option<Resent>
        ensures sent { result ≡ sent_by_tick self.old }
        ensures after { self.new ≡ after_tick self.old }
    {
        if self.down {
            return None;
        }
        let bus = self.sender.resend_bus();
        if !self.sender.tick() {
            return None;
        }
        let packet = self.outstanding()?;
        Some(Resent { bus, packet })
    }

    /// The other node was marked down: all is thrown away, and nothing is sent or taken any more.
    pub fn down(&mut self)
        ensures { self.new ≡ after_down self.old }
    {
        self.sender.clear();
        self.joiner.clear();
        self.down = true;
    }

    /// The packet that tells the other node that this one is alive; none to a node that is marked down.
    pub fn alive(&self) -> Option<Packet>
        ensures { result ≡ alive_of self.now }
    {
        if self.down {
            None
        } else {
            Some(self.packet_of(PacketKind::Alive))
        }
    }

    /// Whether nothing is outstanding or queued.
    pub fn is_empty(&self) -> bool
        ensures { result ≡ is_empty self.now }
    {
        self.sender.is_idle()
    }

    /// The sender's end of the direction to the other node.
    pub fn sender(&self) -> &Sender
        ensures { result.now ≡ self.now.sending }
    {
        &self.sender
    }

    /// The number of the last piece that came from the other node and was kept; 0 before the first.
    pub fn kept(&self) -> u32
        ensures { result ≡ self.now.receiving.kept }
    {
        self.kept
    }

    /// Whether the other node was marked down.
    pub fn is_down(&self) -> bool
        ensures { result ≡ self.now.down }
    {
        self.down
    }

    /// Whether one more piece can be numbered, and one more kept.
    pub fn has_numbers_left(&self) -> bool
        ensures { IsTrue result ↔ HasNumbersLeft self.now }
    {
        self.sender.numbered() < u32::MAX && self.kept < u32::MAX
    }

    /// Whether a packet that comes bears the present incarnations of its sender and its receiver.
    pub fn is_current(&self, packet: &Packet) -> bool
        ensures { result ≡ is_current packet.now self.now }
    {
        packet.incarnation.sender == self.incarnation.receiver
            && packet.incarnation.receiver == self.incarnation.sender
    }

    /// Whether a packet bears the incarnations that the packets of this end bear.
    pub fn is_own(&self, packet: &Packet) -> bool
        ensures { result ≡ is_own packet.now self.now }
    {
        packet.incarnation.sender == self.incarnation.sender
            && packet.incarnation.receiver == self.incarnation.receiver
    }

    /// A node was loaded again. An end of it or with it is a new one then.
    pub fn on_reload(&mut self, alloc: Global, node: u8)
        requires { HasIncarnationLeft node self.old }
        ensures { self.new ≡ end_after_reload node self.old }
    {
        if self.is_of(node) {
            *self = self.next(alloc, node);
        }
    }

    /// Whether this is an end of a node, or with it.
    fn is_of(&self, node: u8) -> bool
        ensures { result ≡ is_of node self.now }
    {
        self.from == node || self.to == node
    }

    /// The new end that bears the next incarnation of a node.
    fn next(&self, alloc: Global, node: u8) -> Channel
        requires { HasIncarnationLeft node self.now }
        ensures { result ≡ next_end node self.now }
    {
        let incarnation = Incarnation {
            sender: incarnation_after(node, self.from, self.incarnation.sender),
            receiver: incarnation_after(node, self.to, self.incarnation.receiver),
        };
        Channel::new(alloc, self.from, self.to, incarnation)
    }

    fn packet_of(&self, kind: PacketKind) -> Packet
        ensures { result ≡ packet_of self.now kind }
    {
        Packet {
            sender: self.from,
            receiver: self.to,
            incarnation: self.incarnation,
            kind,
        }
    }

    fn outstanding(&self) -> Option<Packet>
        ensures { result ≡ packet_outstanding self.now }
    {
        let piece = self.sender.piece()?;
        let number = self.sender.numbered();
        Some(self.packet_of(PacketKind::Piece { number, piece }))
    }

    fn answer(&self, number: u32) -> Option<Packet>
        ensures { result ≡ (if is_kept number self.now.receiving then Some
            (packet_of self.now (kind.Acknowledgement number)) else None) }
    {
        if number <= self.kept {
            Some(self.packet_of(PacketKind::Acknowledgement { number }))
        } else {
            None
        }
    }

    fn keep(&mut self, number: u32, piece: &Piece) -> Result<Option<List<i16>>, NoMemory>
        requires { HasNext self.old.receiving.kept }
        ensures delivered { IfOk result (λ message. message ≡ message_of_piece number piece.now self.old.receiving) }
        ensures after { OnOk result (self.new ≡ record self.old
            { receiving = kept number piece.now self.old.receiving }) }
        ensures err { OnErr result (self.new ≡ self.old) }
    {
        if number == self.kept + 1 {
            let message = self.joiner.add(piece)?;
            self.kept += 1;
            Ok(message)
        } else {
            Ok(None)
        }
    }
}

/// The incarnation of a node after `loaded` was loaded again.
fn incarnation_after(loaded: u8, node: u8, incarnation: u8) -> u8
    requires { node ≡ loaded → incarnation < MOST_RELOADS }
    ensures { result ≡ incarnation_after loaded node incarnation }
{
    if node == loaded {
        incarnation + 1
    } else {
        incarnation
    }
}
