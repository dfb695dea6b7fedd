ghost use Rattle.std.specs.Prelude.{◌≡◌};
ghost use Rattle.tal_builder.specs.First.{name_of, called_of, rel_of, sign_of, scale_of, direction_of, string_of};
ghost use Rattle.tal_builder.specs.First.{is_value, is_begun, is_line, is_heading, is_local};
ghost use Rattle.tal_builder.specs.Outcome.{Gives, Tells};
ghost use Rattle.tal_syntax.specs.Seen.{seen_rel, seen_sign, seen_scale, seen_direction, seen_argument};

use crate::stop::BuildFault;
use gd_words::Ident;
use tal_syntax::{Argument, Direction, Rel, Scale, Sign};
use tal_tokens::{At, Token};

/// A name and its place.
#[derive(Clone, Copy)]
pub struct Named {
    pub at: At,
    pub name: Ident,
}

/// The name with which the tokens begin, and the tokens after it.
pub fn name_first(tokens: &[Token]) -> Option<(Named, &[Token])>
    ensures { Gives (λ r. ((r.0.at, r.0.name), r.1.now)) result (name_of tokens.now) }
{
    match tokens {
        [Token::Name(at, name), rest @ ..] => Some((
            Named {
                at: *at,
                name: *name,
            },
            rest,
        )),
        _ => None,
    }
}

/// The name directly before an opening parenthesis with which the tokens begin, both places, and the tokens after them.
pub fn called_first(tokens: &[Token]) -> Option<(At, Ident, At, &[Token])>
    ensures { Gives (λ r. (r.0, r.1, r.2, r.3.now)) result (called_of tokens.now) }
{
    match tokens {
        [Token::Name(at, name), Token::Open(start), rest @ ..] => Some((*at, *name, *start, rest)),
        _ => None,
    }
}

/// The relation with which the tokens begin, and the tokens after it.
pub fn rel_first(tokens: &[Token]) -> Option<(Rel, &[Token])>
    ensures { Gives (λ r. (seen_rel r.0, r.1.now)) result (rel_of tokens.now) }
{
    match tokens {
        [Token::Equal(at), rest @ ..] => Some((Rel::Equal(*at), rest)),
        [Token::Differs(at), rest @ ..] => Some((Rel::Differs(*at), rest)),
        [Token::Less(at), rest @ ..] => Some((Rel::Less(*at), rest)),
        [Token::AtMost(at), rest @ ..] => Some((Rel::AtMost(*at), rest)),
        [Token::Greater(at), rest @ ..] => Some((Rel::Greater(*at), rest)),
        [Token::AtLeast(at), rest @ ..] => Some((Rel::AtLeast(*at), rest)),
        _ => None,
    }
}

/// The sign of a term with which the tokens begin, and the tokens after it.
pub fn sign_first(tokens: &[Token]) -> Option<(Sign, &[Token])>
    ensures { Gives (λ r. (seen_sign r.0, r.1.now)) result (sign_of tokens.now) }
{
    match tokens {
        [Token::Plus(at), rest @ ..] => Some((Sign::Plus(*at), rest)),
        [Token::Minus(at), rest @ ..] => Some((Sign::Minus(*at), rest)),
        _ => None,
    }
}

/// The sign of a factor with which the tokens begin, and the tokens after it.
pub fn scale_first(tokens: &[Token]) -> Option<(Scale, &[Token])>
    ensures { Gives (λ r. (seen_scale r.0, r.1.now)) result (scale_of tokens.now) }
{
    match tokens {
        [Token::Star(at), rest @ ..] => Some((Scale::Times(*at), rest)),
        [Token::Slash(at), rest @ ..] => Some((Scale::Over(*at), rest)),
        _ => None,
    }
}

/// The way that a FOR counts, which the tokens have to begin with, and the tokens after it.
pub fn direction(tokens: &[Token]) -> Result<(Direction, &[Token]), BuildFault>
    ensures { Tells (λ r. (seen_direction r.0, r.1.now)) result (direction_of tokens.now) }
{
    match tokens {
        [Token::To(at), rest @ ..] => Ok((Direction::Up(*at), rest)),
        [Token::DownTo(at), rest @ ..] => Ok((Direction::Down(*at), rest)),
        _ => Err(BuildFault::NoSyntax),
    }
}

/// The string with which the tokens begin, and the tokens after it.
pub fn string_first(tokens: &[Token]) -> Option<(Argument, &[Token])>
    ensures { Gives (λ r. (seen_argument r.0, r.1.now)) result (string_of tokens.now) }
{
    match tokens {
        [Token::Receive(at), rest @ ..] => Some((Argument::Receive(*at), rest)),
        [Token::Process(at, name), rest @ ..] => Some((Argument::Process(*at, *name), rest)),
        [Token::Text(at), rest @ ..] => Some((Argument::Quoted(*at), rest)),
        _ => None,
    }
}

/// Whether an expression begins here.
pub fn is_value(tokens: &[Token]) -> bool
    ensures { result ≡ is_value tokens.now }
{
    match tokens {
        [Token::Not(_), ..] => true,
        [Token::Minus(_), ..] => true,
        [Token::Number(_, _), ..] => true,
        [Token::Name(_, _), ..] => true,
        [Token::Open(_), ..] => true,
        _ => false,
    }
}

/// Whether a statement that isn't empty begins here.
pub fn is_begun(tokens: &[Token]) -> bool
    ensures { result ≡ is_begun tokens.now }
{
    match tokens {
        [Token::Begin(_), ..] => true,
        [Token::If(_), ..] => true,
        [Token::While(_), ..] => true,
        [Token::For(_), ..] => true,
        [Token::Do(_), ..] => true,
        [Token::Call(_), ..] => true,
        [Token::Return(_), ..] => true,
        [Token::Name(_, _), ..] => true,
        _ => false,
    }
}

/// Whether a line of globals begins here: after INT a name tells it from a procedure.
pub fn is_line(tokens: &[Token]) -> bool
    ensures { result ≡ is_line tokens.now }
{
    match tokens {
        [Token::Literal(_), ..] => true,
        [Token::Int(_), Token::Name(_, _), ..] => true,
        _ => false,
    }
}

/// Whether a procedure begins here.
pub fn is_heading(tokens: &[Token]) -> bool
    ensures { result ≡ is_heading tokens.now }
{
    match tokens {
        [Token::Int(_), ..] => true,
        [Token::Proc(_), ..] => true,
        _ => false,
    }
}

/// Whether locals begin here.
pub fn is_local(tokens: &[Token]) -> bool
    ensures { result ≡ is_local tokens.now }
{
    match tokens {
        [Token::Int(_), ..] => true,
        _ => false,
    }
}
