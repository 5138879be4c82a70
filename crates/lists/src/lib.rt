// What a place of a lent list holds, and where a part of a list lies. It knows the definition and lengths; of what a list is for, no more than the order of a point's values (specs/, and Values of proofs/).
// Every call has an answer for every number: past a list's end a float is NaN, as the definition reads it, and a part ends with the list.
#![tactic(auto)]

ghost use Rattle.std.specs.Prelude.{◌≡◌, ◌+◌, ◌*◌, min, get_or, take, drop};
ghost use Rattle.std.specs.Float.{nan};
ghost use Rattle.definition.specs.Mapping.{first, second};
ghost use Rattle.definition.specs.Mesh.{pair_at};

use definition::{Point, Reference};

// ---- what a place holds

// The entry at place i, or `past` where the list has ended.
pub fn get_or<T: Copy>(list: &[T], i: usize, past: T) -> T
    ensures { result ≡ get_or list.now i past }
{
    list.get(i).copied().unwrap_or(past)
}

// The float at place i, NaN past the end.
#[tactic(auto, unfolding(std::specs::Prelude::from_bits))]
pub fn value_at(values: &[f64], i: usize) -> f64
    ensures { result ≡ get_or values.now i nan }
{
    get_or(values, i, f64::NAN)
}

// Node or point i of a list of coordinate pairs. It is read without cutting the list, by which the walk over many nodes takes half as long again.
pub fn pair_at(pairs: &[f64], i: usize) -> Point
    ensures { result ≡ pair_at pairs.now i }
{
    if i < pairs.len() {
        Point {
            x: value_at(pairs, 2 * i),
            y: value_at(pairs, 2 * i + 1),
        }
    } else {
        Point {
            x: f64::NAN,
            y: f64::NAN,
        }
    }
}

// Reference point p of a list of pairs.
pub fn reference_at(reference_points: &[f64], p: usize) -> Reference
    ensures { result ≡ record { xi = first reference_points.now p; eta = second reference_points.now p } }
{
    let q = pair_at(reference_points, p);
    Reference { xi: q.x, eta: q.y }
}

// ---- where a part lies

// Where part i begins in a list of len entries in parts of `size` each, or len where that is past the end.
// Kept: a length and a size are two numbers; a struct for them would be made for one call, and is no plainer.
pub fn part_start(size: usize, i: usize, len: usize) -> usize
    ensures { result ≡ min (size * i) len }
{
    size.saturating_mul(i).min(len)
}

// Where `size` places that begin at start end in a list of len entries, or len where that is past the end.
// Kept: a length and a size are two numbers; a struct for them would be made for one call, and is no plainer.
pub fn part_end(size: usize, start: usize, len: usize) -> usize
    ensures { result ≡ min (start + size) len }
{
    start.saturating_add(size).min(len)
}

// Part i of a list in parts of `size` each: what the list has of it.
pub fn part<T>(list: &[T], size: usize, i: usize) -> &[T]
    ensures { result.now ≡ take size (drop (size * i) list.now) }
{
    let start = part_start(size, i, list.len());
    let end = part_end(size, start, list.len());
    &list[start..end]
}
