// The result word: a refusal and a number in eight bytes.
ghost use Rattle.std.specs.Prelude.{◌≡◌, ◌<◌};
ghost use Rattle.refusals.specs.Refusals.{none, plain};
ghost use Rattle.refusals.specs.Reasons.{number_of, refusal_of, tells, told};
ghost use Rattle.room.specs.Answers.{no_number, a_number};
ghost use Rattle.driver.specs.Words.{word, number_word, Small};

use crate::Answer;
use refusals::{Reason, Refused};

// The result word of a number, where nothing is refused.
pub(crate) fn value_word(value: usize) -> Answer
    requires { value < 4294967296 }
    ensures { result ≡ word none value }
{
    Answer {
        word: 4294967296 * (value as u64),
    }
}

// The result word of a reason, which has no place.
pub(crate) fn reason_word(reason: Reason) -> Answer
    ensures { result ≡ word (plain (number_of reason)) 0 }
{
    Answer {
        word: reason.number() as u64,
    }
}

// The result word of a refusal with its place.
pub(crate) fn refused_word(refused: Refused) -> Answer
    requires { Small (refusal_of refused) 0 }
    ensures { result ≡ word (refusal_of refused) 0 }
{
    let number = refused.reason.number() as u64;
    let route = refused.route as u64;
    let hop = refused.hop as u64;
    let earlier = 16 * (refused.earlier_route as u64) + refused.earlier_hop as u64;
    Answer {
        word: 16777216 * earlier + (65536 * hop + (256 * route + number)),
    }
}

// The result word of a number, or of the reason why there is none.
pub(crate) fn number_word(answer: Result<usize, Reason>) -> Answer
    requires { (tells no_number a_number answer).value < 4294967296 }
    ensures { result ≡ number_word (tells no_number a_number answer) }
{
    match answer {
        Ok(value) => value_word(value),
        Err(reason) => reason_word(reason),
    }
}

// The result word of a call that answers nothing, with the value 0.
pub(crate) fn done_word(done: Result<(), Reason>) -> Answer
    ensures { result ≡ word (plain (told done)) 0 }
{
    match done {
        Ok(()) => value_word(0),
        Err(reason) => reason_word(reason),
    }
}
