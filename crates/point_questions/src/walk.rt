// One point after the other, whatever is asked of it. It knows the definition's outcomes, and nothing of a call.
ghost use Rattle.std.specs.Prelude.{◌≡◌, ◌<◌, ℕ, List};
ghost use Rattle.definition.specs.Lists.{each};
ghost use Rattle.definition.specs.Questions.{Question, asked, outcome};

use definition::Refusal;

// Asks `ask_at` of the points below `count`, from point 0 on: the first no is the answer.
pub(crate) fn each_point<A: Fn(usize) -> Result<(), Refusal>>(
    count: usize,
    ask_at: A,
) -> Result<(), Refusal>
    requires { A.IsAlwaysCallable ask_at }
    ensures { (questions : ℕ → List Question) → ((p : ℕ) (r : _) → p < count → A.post ask_at p r → outcome r ≡ asked (questions p) tt) → outcome result ≡ asked (each questions count) tt }
{
    for p in 0..count {
        ask_at(p)?;
    }
    Ok(())
}
