ghost use Rattle.std.specs.Prelude.{◌≡◌, ◌<◌, length, IfOk};
ghost use Rattle.tal_tokens.specs.Lexer.{tokens_of, IsEnded};

use crate::begun::Begun;
use crate::cursor::Cursor;
use crate::token::Token;
use std::alloc::Global;
use tal_tree::{List, NoMemory, TalFault};

/// The tokens of a text, `Finish` last, or the tokens before the first byte that belongs to none, and the fault there.
#[derive(Drop)]
pub struct TokenList {
    pub list: List<Token>,
    pub fault: Option<TalFault>,
}

/// The tokens of a text.
pub fn tokens(alloc: Global, text: &[u8]) -> Result<TokenList, NoMemory>
    requires { length text.now < 4294967295 }
    ensures value { IfOk result (λ tokens. tokens ≡ tokens_of text.now) }
    ensures ended { IfOk result IsEnded }
{
    let mut list = List::new(alloc);
    let mut here = Cursor::start();
    let mut rest = text;
    while !rest.is_empty() {
        let taken = match Begun::of(here, rest) {
            Begun::Gap(len) => len,
            Begun::Whole(token, len) => {
                list.push(token)?;
                len
            }
            Begun::Broken(fault) => {
                return Ok(TokenList {
                    list,
                    fault: Some(fault),
                });
            }
        };
        let (front, tail) = rest.split_at(taken);
        here = here.past(front);
        rest = tail;
    }
    list.push(Token::Finish(here.at(0)))?;
    Ok(TokenList { list, fault: None })
}
