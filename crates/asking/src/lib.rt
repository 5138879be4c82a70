// How a question is put: it passes, or it refuses with the question and its place. And whether a list is whole records, which several of them ask.
// Questions come one after the other by `?`, until the first no. It knows the definition and nothing of a mesh or a call.
#![tactic(auto)]

ghost use Rattle.std.specs.Prelude.{◌≡◌, [], ◌∷◌};
ghost use Rattle.definition.specs.Questions.{ask, asked, number_of, numbered_outcome, onward, outcome, whole};

use definition::{NumberedRefusal, QuestionKind, Refusal};

// A question that was answered: where it does not hold, the refusal says which one it was, and its place.
#[tactic(auto, unfolding(definition::specs::Questions::asked))]
pub fn ask(holds: bool, question: QuestionKind, place: usize) -> Result<(), Refusal>
    ensures { outcome result ≡ asked (ask (number_of question) place holds ∷ []) tt }
{
    if holds {
        Ok(())
    } else {
        Err(Refusal { question, place })
    }
}

// What was answered so far, and after a pass one question more, by any number: where it does not hold, its number and its place.
// Kept: a number, as `NumberedRefusal` has it.
#[tactic(auto, unfolding(definition::specs::Questions::asked))]
pub fn then(
    before: Result<(), NumberedRefusal>,
    holds: bool,
    question: u8,
    place: usize,
) -> Result<(), NumberedRefusal>
    ensures { numbered_outcome result ≡ onward (numbered_outcome before) (asked (ask question place holds ∷ []) tt) }
{
    before?;
    if holds {
        Ok(())
    } else {
        Err(NumberedRefusal { question, place })
    }
}

// Whether a list of len numbers is whole records of size numbers, at most 1,000,000 of them. With size 0 only the empty list is.
// Kept: a length and a size are two numbers; a struct for them would be made for one call, and is no plainer.
pub fn whole(size: usize, len: usize) -> bool
    ensures { result ≡ whole size len }
{
    if size == 0 {
        return len == 0;
    }
    len % size == 0 && len / size <= 1000000
}
