// One search for the place nearest to a target: from a first best, and from the ends of the steps of each seed, which replace it where they are nearer. Elements and faces are searched by it.
// It knows the definition; nothing of an element or a face, or of what a step is.

ghost use Rattle.std.specs.Prelude.{◌≡◌, true, length, fold, IfSome};
ghost use Rattle.definition.specs.Search.{walked, placed, nearer, best_of};
ghost use Rattle.definition.specs.declared.Point.{Point};
ghost use Rattle.definition.specs.declared.Step.{Step};
ghost use Rattle.search.specs.Steps.{Remembered};

use definition::{Best, Point, Step};

// What is searched: its places, the point of each, the target, and the step from each.
pub trait Search {
    type At: Copy;

    ghost point_of: { Self → Self.At → Point };

    ghost target: { Self → Point };

    ghost step: { Self → Self.At → Step Self.At };

    fn point(&self, at: Self::At) -> Point
        ensures { result ≡ point_of self.now at };

    fn target(&self) -> Point
        ensures { result ≡ target self.now };

    fn step(&self, at: Self::At) -> Step<Self::At>
        ensures { result ≡ step self.now at };

    // Whether two places have the same bits.
    fn is_same(a: Self::At, b: Self::At) -> bool
        ensures { result ≡ true → a ≡ b };
}

// A step that ended the steps of a seed.
#[derive(Clone, Copy)]
pub struct LastStep<A> {
    pub from: A,
    pub to: A,
}

// Where the steps of a seed end, and the step that last ended a seed's.
#[derive(Clone, Copy)]
struct End<A> {
    at: A,
    known: Option<LastStep<A>>,
}

// The place at a reference or a coordinate: its point, and the squared distance from the target.
// Kept: a search and one of its places, as `point` and `step` take them; a struct of the two would be made anew at each place, and a trait for this and a node's place is no plainer.
#[tactic(auto, unfolding(definition::specs::Search::placed))]
#[inline(always)]
pub fn place<S: Search>(search: &S, at: S::At) -> Best<S::At>
    ensures { result ≡ placed (S.point_of search.now) (S.target search.now) at }
{
    let target = search.target();
    let point = search.point(at);
    let square = binary64::squared_distance(point.x, point.y, target.x, target.y);
    Best { at, point, square }
}

// A place replaces the best only with a smaller square.
#[tactic(auto, unfolding(definition::specs::Search::nearer))]
#[inline(always)]
pub fn nearer<A: Copy>(best: Best<A>, new: Best<A>) -> Best<A>
    ensures { result ≡ nearer best new }
{
    if new.square < best.square { new } else { best }
}

// The nearest of the first place and the others.
#[inline(always)]
pub fn nearest<A: Copy>(first: Best<A>, places: &[Best<A>]) -> Best<A>
    ensures { result ≡ fold nearer first places.now }
{
    places
        .iter()
        .fold(first, |best, place| nearer(best, *place))
}

// The best so far, or the place where that is nearer. The best's own place is not, and is not worked out again.
// Kept: a search and one of its places, as `point` and `step` take them; a struct of the two would be made anew at each step, and is no plainer.
#[tactic(auto, using(crate::proofs::Tried::met))]
#[inline(always)]
fn better<S: Search>(search: &S, best: Best<S::At>, at: S::At) -> Best<S::At>
    requires { best ≡ placed (S.point_of search.now) (S.target search.now) best.at }
    ensures { result ≡ nearer best (placed (S.point_of search.now) (S.target search.now) at) }
{
    if S::is_same(at, best.at) {
        return best;
    }
    nearer(best, place(search, at))
}

// Where the steps from a place end, if the step from it is the one that is known.
#[inline(always)]
fn known_end<S: Search>(known: Option<LastStep<S::At>>, at: S::At) -> Option<S::At>
    ensures { IfSome result (λ to. known ≡ Some (record { from = at; to = to })) }
{
    known
        .filter(|last| S::is_same(at, last.from))
        .map(|last| last.to)
}

// At most `limit` steps from a place. Most seeds come to the same corner of a distant element and end there: the step from it is made for the first of them.
// Kept: a search and one of its places, as `point` and `step` take them; a struct of the two would be made anew at each step, and is no plainer.
#[tactic(auto, using(crate::proofs::Ends::on, crate::proofs::Ends::stays, crate::proofs::Ends::lasts))]
#[inline(always)]
fn walk<S: Search>(
    search: &S,
    limit: usize,
    mut at: S::At,
    mut known: Option<LastStep<S::At>>,
) -> End<S::At>
    requires { Remembered (S.step search.now) known }
    ensures at_value { result.at ≡ walked (S.step search.now) limit at }
    ensures remembered { Remembered (S.step search.now) result.known }
{
    for made in 0..limit {
        if let Some(to) = known_end::<S>(known, at) {
            at = to;
            break;
        }
        match search.step(at) {
            Step::Stay => {
                known = Some(LastStep { from: at, to: at });
                break;
            }
            Step::Last(to) => {
                known = Some(LastStep { from: at, to });
                at = to;
                break;
            }
            Step::More(to) => at = to,
        }
    }
    End { at, known }
}

// The best of the first place and of the ends of the seeds' steps, at most `limit` steps a seed.
#[tactic(auto, using(crate::proofs::Tried::begun, crate::proofs::Tried::next, crate::proofs::Tried::own_place))]
#[inline(always)]
pub fn best<S: Search>(search: &S, limit: usize, start: S::At, seeds: &[S::At]) -> Best<S::At>
    ensures { result ≡ best_of (S.point_of search.now) (S.step search.now) (S.target search.now) limit start seeds.now (length seeds.now) }
{
    let mut best = place(search, start);
    let mut known = None;
    for seed in seeds {
        let end = walk(search, limit, *seed, known);
        known = end.known;
        best = better(search, best, end.at);
    }
    best
}
