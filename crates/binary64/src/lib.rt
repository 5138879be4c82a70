// What is done with one or two floats: the squared distance of two points, the clamp, whether two numbers are the same, and a bit pattern's number.
// It knows the definition and the bits of a float; nothing of an element, a list or a file.
#![tactic(auto)]

ghost use Rattle.std.specs.Prelude.{◌≡◌, true};
ghost use Rattle.std.specs.Float.{binary64};
ghost use Rattle.std.specs.Float.Ieee.{of_bits};
ghost use Rattle.definition.specs.Binary64.{squared_distance, clamp_of};
ghost use Rattle.binary64.specs.OneNumber.{one_number};

use std::num::f64_from_bits_with_nan;

// The squared distance of the points (ax, ay) and (bx, by).
#[tactic(auto, unfolding(definition::specs::Binary64::squared_distance))]
pub fn squared_distance(ax: f64, ay: f64, bx: f64, by: f64) -> f64
    ensures { result ≡ squared_distance ax ay bx by }
{
    let dx = ax - bx;
    let dy = ay - by;
    dx * dx + dy * dy
}

// Within [-1, 1], and -1 for NaN.
// Kept: `f64::clamp` leaves a NaN, and of `max` and then `min` a reader has to know what they make of it, so that they are no plainer.
pub fn clamp(x: f64) -> f64
    ensures { result ≡ clamp_of x }
{
    if x > -1.0 {
        if x < 1.0 { x } else { 1.0 }
    } else {
        -1.0
    }
}

// Whether two numbers have the same bits: +0 and -0 do not, and a NaN is the same as nothing.
#[tactic(auto, using(crate::proofs::OnePattern::right_number, crate::proofs::OnePattern::one_pattern), unfolding(crate::specs::OneNumber::one_number))]
pub fn same(a: f64, b: f64) -> bool
    ensures value { result ≡ one_number a b }
    ensures equal { result ≡ true → a ≡ b }
{
    a == b && a.to_bits() == b.to_bits()
}

// The number of a bit pattern. Every NaN pattern is the one NaN.
pub fn float_of(bits: u64) -> f64
    ensures { result ≡ of_bits binary64 bits }
{
    f64_from_bits_with_nan(bits)
}
