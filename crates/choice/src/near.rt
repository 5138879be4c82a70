// The nearest so far of the elements, or of the faces. They compare the roots of the squared distances, and the first of those that tie stays.
// It knows the definition and the root; nothing of an element or a face.

ghost use Rattle.std.specs.Prelude.{◌≡◌};
ghost use Rattle.std.specs.Bool.{then_some};
ghost use Rattle.std.specs.Float.Ieee.{lt};
ghost use Rattle.definition.specs.Root.{root_of};

use definition::Best;

// Its number, what its search found, and the distance.
#[derive(Drop)]
pub struct Near<A> {
    pub number: usize,
    pub best: Best<A>,
    pub distance: f64,
    ghost rooted: { distance ≡ root_of best.square },
}

impl<A: Copy> Near<A> {
    ghost use Rattle.std.specs.Prelude.{ℕ, ◌+◌};
    ghost use Rattle.definition.specs.declared.Best.{Best};
    ghost use Rattle.choice.specs.Nearest.{IsNearest};

    pub fn new(number: usize, best: Best<A>) -> Near<A>
        ensures { (result.number ≡ number) × (result.best ≡ best) }
    {
        Near {
            number,
            best,
            distance: root::root(best.square),
        }
    }

    // The next one where it is nearer.
    pub fn or_nearer(self, number: usize, found: Best<A>) -> Near<A>
        ensures { (found_at : ℕ → Best A) → IsNearest found_at number self → found ≡ found_at number → IsNearest found_at (number + 1) result }
    {
        let smaller = smaller_root(found.square, self.best.square, self.distance);
        let Some(distance) = smaller else {
            return self;
        };
        Near {
            number,
            best: found,
            distance,
        }
    }
}

// The root of `square` where it is smaller than `distance`, the root of `best_square`. The root keeps the order, so it is taken only where it can be smaller.
fn smaller_root(square: f64, best_square: f64, distance: f64) -> Option<f64>
    requires { distance ≡ root_of best_square }
    ensures { result ≡ then_some (lt (root_of square) distance) (root_of square) }
{
    (square < best_square)
        .then(|| root::root(square))
        .filter(|root| *root < distance)
}
