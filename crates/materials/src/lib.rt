// The materials of a table: an element's material, turned by its pair (c, s), and its product with the strains of a point. It knows the definition, how a list is read and how many nodes a family has: no geometry and no triplet.
// A material is sixteen numbers, four rows of four, for the components rr, zz, tt and rz (xx, yy, zz and xy). Every call has an answer for every list and every number.
#![tactic(auto)]

mod given;

ghost use Rattle.std.specs.Prelude.{◌≡◌, ◌&&◌, ◌*◌, ◌≤◌, ◌<◌, length};
ghost use Rattle.std.specs.Float.Ieee.{eq};
ghost use Rattle.definition.specs.Binary64.{plus0, one};
ghost use Rattle.definition.specs.Lists.{over};
ghost use Rattle.definition.specs.Elements.{nodes_of};
ghost use Rattle.definition.specs.Query.{values};
ghost use Rattle.definition.specs.Rows.{four_terms, product_of, strain_to_local, stress_to_global, rotated};
ghost use Rattle.materials.specs.Products.{over_from, entry_of, times_of};
ghost use Rattle.materials.specs.Sixteen.{sixteen};

pub use given::Materials;
use std::array;

// ---- products of sixteen numbers
// Each entry is four terms from +0, in the order of the columns. A matrix is whole by its type, so that every call has an answer.

// Row i of a, times the four numbers.
// Kept: a matrix and a row of it, and the definition's four numbers, which an array would only take together and apart again; a method on a struct around the matrix would read the same, and is no plainer.
#[tactic(auto, unfolding(definition::specs::Rows::four_terms))]
fn four_terms(a: &[f64; 16], i: usize, b0: f64, b1: f64, b2: f64, b3: f64) -> f64
    requires { i < 4 }
    ensures { result ≡ four_terms a.now i b0 b1 b2 b3 }
{
    let k = 4 * i;
    0.0 + a[k] * b0 + a[k + 1] * b1 + a[k + 2] * b2 + a[k + 3] * b3
}

// Row i of a, times column t of the matrix b of four rows.
// Kept: a matrix and a row of it; a method on a struct around the array would read the same, and is no plainer.
#[tactic(auto, unfolding(crate::specs::Products::entry_of))]
fn entry(a: &[f64; 16], b: &[f64], columns: usize, i: usize, t: usize) -> f64
    requires { (4 * columns ≤ length b.now) × (i < 4) × (t < columns) }
    ensures { result ≡ entry_of a.now b.now columns i t }
{
    four_terms(
        a,
        i,
        b[t],
        b[columns + t],
        b[2 * columns + t],
        b[3 * columns + t],
    )
}

// Row i of a, times the matrix b of four rows, into the places of row i.
// Kept: a matrix and a row of it; a method on a struct around the array would read the same, and is no plainer.
fn put_row(a: &[f64; 16], b: &[f64], columns: usize, i: usize, out: &mut [f64])
    requires { (4 * columns ≤ length b.now) × (4 * columns ≤ length out.old) × (i < 4) }
    ensures { out.new ≡ over_from (columns * i) (values (entry_of a.now b.now columns i) columns) out.old }
{
    let start = columns * i;
    for t in 0..columns {
        out[start + t] = entry(a, b, columns, i, t);
    }
}

// Material times strain, over the lent array. The strain has a row a component, of two numbers a node; a strain that is 0 by its place is a term like any other.
pub fn put_stress_values(
    material: &[f64; 16],
    strain: &[f64; 72],
    family: usize,
    out: &mut [f64; 72],
)
    ensures { out.new ≡ over (times_of material.now strain.now (2 * nodes_of family)) out.old }
{
    let columns = 2 * elements::nodes_per_element(family);
    for i in 0..4 {
        put_row(material, strain, columns, i, out);
    }
}

// The product of two matrices of sixteen numbers. The number of columns is one that the compiler knows: the rows become straight code.
pub fn product(a: &[f64; 16], b: &[f64; 16]) -> [f64; 16]
    ensures { result ≡ product_of a.now b.now }
{
    let mut out = [0.0; 16];
    for i in 0..4 {
        put_row(a, b, 4, i, &mut out);
    }
    out
}

// ---- a material as an array

// A material as an array, with NaN for the numbers that it does not have.
fn copy_material(material: &[f64]) -> [f64; 16]
    ensures { result ≡ sixteen material.now }
{
    array::from_fn(|i| lists::value_at(material, i))
}

// ---- a material turned in the plane

// The pair (c, s) that a material is turned by: the cosine and the sine of an angle, or any two numbers.
#[derive(Clone, Copy)]
struct Turn {
    c: f64,
    s: f64,
}

impl Turn {
    // The matrix that takes strains to the material's own axes.
    fn strain_to_local(self) -> [f64; 16]
        ensures { result ≡ strain_to_local self.c self.s }
    {
        let Turn { c, s } = self;
        let cc = c * c;
        let ss = s * s;
        let cs = c * s;
        [
            cc,
            ss,
            0.0,
            cs,
            ss,
            cc,
            0.0,
            -cs,
            0.0,
            0.0,
            1.0,
            0.0,
            -2.0 * cs,
            2.0 * cs,
            0.0,
            cc - ss,
        ]
    }

    // The matrix that takes stresses back from the material's own axes.
    fn stress_to_global(self) -> [f64; 16]
        ensures { result ≡ stress_to_global self.c self.s }
    {
        let Turn { c, s } = self;
        let cc = c * c;
        let ss = s * s;
        let cs = c * s;
        [
            cc,
            ss,
            0.0,
            -2.0 * cs,
            ss,
            cc,
            0.0,
            2.0 * cs,
            0.0,
            0.0,
            1.0,
            0.0,
            cs,
            -cs,
            0.0,
            cc - ss,
        ]
    }

    // Whether the pair is equal to (1, 0), where a zero of either sign is.
    fn is_unturned(self) -> bool
        ensures { result ≡ eq self.c one && eq self.s plus0 }
    {
        self.c == 1.0 && self.s == 0.0
    }
}

// A material turned by the pair (c, s): a pair equal to (1, 0) copies it, and any other turns strains to its axes and stresses back.
#[tactic(auto, using(crate::proofs::Turning::copied, crate::proofs::Turning::turned))]
pub fn rotate_material_in_plane(material: &[f64], c: f64, s: f64) -> [f64; 16]
    ensures { result ≡ sixteen (rotated material.now c s) }
{
    let turn = Turn { c, s };
    if turn.is_unturned() {
        return copy_material(material);
    }
    let half = product(&copy_material(material), &turn.strain_to_local());
    product(&turn.stress_to_global(), &half)
}
