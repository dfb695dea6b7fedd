ghost use Rattle.std.specs.Prelude.{◌≡◌, ◌<◌, length};
ghost use Rattle.std.specs.List.{position};
ghost use Rattle.std.specs.Option.{IfSome};
ghost use Rattle.message_wires.specs.Wires.{is_sending};
ghost use Rattle.posted_letters.specs.Rising.{Rises};

use crate::sent::Sent;

/// Where the letter of a sending stands among letters whose numbers rise.
pub(crate) fn place_of(owed: &[Sent], number: u64) -> Option<usize>
    requires { Rises owed.now }
    ensures value { result ≡ position (is_sending number) owed.now }
    ensures there { IfSome result (λ place. place < length owed.now) }
{
    let place = owed.partition_point(|one| one.number() < number);
    if place < owed.len() && owed[place].is_sending(number) {
        Some(place)
    } else {
        None
    }
}
