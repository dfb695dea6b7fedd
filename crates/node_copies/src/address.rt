ghost use Rattle.std.specs.Prelude.{◌≡◌, ◌<◌, Some};
ghost use Rattle.std.specs.Option.{IfSome};

use message_wires::Opener;
use std::marker::Model;

/// Where an opener stands: its server's place in the deck, and its own place among the server's openers.
#[derive(Clone, Copy, PartialEq, Eq)]
pub struct Address {
    process: u8,
    opener: u16,
}

impl Model for Address {
    ghost use Rattle.message_wires.specs.plain_semantics.specs.declared.slot.Opener.{Opener};

    ghost Value = { Opener };

    ghost view = { λ address. record { server = address.process; place = address.opener } };

    ghost inverse = { λ opener. record { process = opener.server; opener = opener.place } };
}

impl Address {
    /// The address of an opener, if its numbers fit.
    pub fn of(opener: Opener) -> Option<Address>
        ensures value { IfSome result (λ address. address ≡ opener) }
        ensures there { opener.server < 256 → opener.place < 65536 → result ≡ Some opener }
    {
        let process = u8::try_from(opener.server).ok()?;
        let opener = u16::try_from(opener.place).ok()?;
        Some(Address { process, opener })
    }

    pub fn process(&self) -> u8
        ensures { result ≡ self.now.server }
    {
        self.process
    }

    pub fn opener(&self) -> u16
        ensures { result ≡ self.now.place }
    {
        self.opener
    }
}
