ghost use Rattle.std.specs.Prelude.{◌≡◌, IfOk, List};
ghost use Rattle.tal_recogniser.specs.declared.judgement.Judgement.{Judgement};
ghost use Rattle.tal_tokens.specs.declared.token.Token.{Token};
ghost use Rattle.tal_recogniser.specs.Judged.{Judged};

use crate::judgement::Judgement;
use crate::stack::Stack;
use std::alloc::Global;
use tal_tokens::{MOST_LEVELS, NoMemory, Token};

/// Whether tokens are a text of the grammar within 33 levels, the beginning of one, or from which token on they aren't.
pub fn judge(alloc: Global, tokens: &[Token]) -> Result<Judgement, NoMemory>
    ensures { IfOk result (λ j. Judged tokens.now j) }
{
    let mut stack = Stack::start(alloc)?;
    for k in 0..tokens.len() {
        if !stack.feed(&tokens[k])? {
            return Ok(Judgement::Unexpected(k));
        }
        if stack.levels() > MOST_LEVELS {
            return Ok(Judgement::TooDeep(k));
        }
    }
    if stack.is_empty() {
        Ok(Judgement::Fine)
    } else {
        Ok(Judgement::Unfinished)
    }
}

/// The law of judgements: tokens are judged in one way.
pub fn tokens_are_judged_once()
    ensures { (ks : List Token) (i j : Judgement) → Judged ks i → Judged ks j → i ≡ j }
{}
