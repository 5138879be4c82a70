// The correctly rounded square root of every f64, `root_of` of the written definition. It knows the definition alone.
// The machine's root is a guess, of which nothing is taken as known: it is the answer where integer squares show that it is right, and else the root is worked out by integers.
#![tactic(auto)]

ghost use Rattle.std.specs.Prelude.{◌≡◌, true, ◌+◌, ◌*◌, ◌^◌, ◌≤◌, ◌<◌};
ghost use Rattle.std.specs.Float.{binary64};
ghost use Rattle.std.specs.Float.Ieee.{of_bits};
ghost use Rattle.definition.specs.Root.{in_units, root_units, root_of};
ghost use Rattle.definition.proofs.Root.Isqrt.{Whole};
ghost use Rattle.definition.proofs.Root.Scaled.{Scaled};

use std::num::f64_to_bits_with_nan;

// The root of x.
pub fn root(x: f64) -> f64
    ensures { result ≡ root_of x }
{
    if x > 0.0 {
        if x < f64::INFINITY {
            positive_root(x.to_bits())
        } else {
            x
        }
    } else if x == 0.0 {
        x
    } else {
        f64::NAN
    }
}

// The root of the finite value above zero whose bit pattern is b.
#[tactic(auto, using(std::proofs::lemmas::Float::not_nan_f64_bits))]
fn positive_root(b: u64) -> f64
    requires { (0 < b) × (b < 2047 * 2 ^ 52) }
    ensures { result ≡ root_units (in_units (of_bits binary64 b)) }
{
    let v = scale(b);
    let exponent = (v.h + 1) * 0x10_0000_0000_0000;
    let p = f64_to_bits_with_nan(f64::from_bits(b).sqrt());
    if exponent <= p && is_root(p - exponent, v.a) {
        return f64::from_bits(p);
    }
    f64::from_bits(exponent + (whole_root(v.a) + 1) / 2)
}

// A count n of units, times 2^1074, as a * 2^54 * 4^h with 2^52 <= a < 2^54: the root of n units is the root of a * 2^54, times 2^h.
#[derive(Clone, Copy)]
struct Split {
    a: u64,
    h: u64,
}

// The units of the value whose bit pattern is b, split.
fn scale(b: u64) -> Split
    requires { (0 < b) × (b < 2047 * 2 ^ 52) }
    ensures { (result.h < 1533) × Scaled (in_units (of_bits binary64 b)) result.h result.a }
{
    let e = b >> 52;
    let t = b % 0x10_0000_0000_0000;
    if e == 0 {
        let z = t.leading_zeros();
        let p = 1085 - z;
        Split {
            a: t << (z - 11 + p % 2),
            h: ((p - 54) / 2) as u64,
        }
    } else {
        let p = e + 1073;
        Split {
            a: (t + 0x10_0000_0000_0000) << (p % 2),
            h: (p - 54) / 2,
        }
    }
}

// Whether c is half the root of a * 2^54, rounded: whether c * (c - 1) < a * 2^52 <= c * (c + 1).
fn is_root(c: u64, a: u64) -> bool
    requires { a < 2 ^ 54 }
    ensures { result ≡ true → (c * c < a * 2 ^ 52 + c) × (a * 2 ^ 52 ≤ c * c + c) }
{
    let c = u128::from(c);
    let goal = u128::from(a) << 52;
    c * c < goal + c && goal <= c * c + c
}

// The whole part of the root of a * 2^54.
fn whole_root(a: u64) -> u64
    requires { a < 2 ^ 54 }
    ensures { Whole result (a * 2 ^ 54) }
{
    (u128::from(a) << 54).isqrt() as u64
}
