// When a step is short, or a determinant small. It knows the definition's magnitude, and nothing of a search.

ghost use Rattle.std.specs.Prelude.{◌≡◌};
ghost use Rattle.std.specs.Float.Ieee.{le};
ghost use Rattle.definition.specs.Binary64.{magnitude};

// Whether the magnitude of x is at most `bound`: no for NaN.
#[tactic(auto, using(definition::proofs::Binary64::magnitude_is))]
#[inline(always)]
pub fn within(x: f64, bound: f64) -> bool
    ensures { result ≡ le (magnitude x) bound }
{
    x.abs() <= bound
}
