// What the three operators have in common: the rows of one point after the other, as triplets in the three lent lists, after the questions have all been answered yes. A refusal leaves the lists as they were.
// It knows the order of the triplets, and where a point's element and its nodes stand in a call. What a point's values are, and which questions are asked, each operator says for itself.
#![tactic(auto)]

ghost use Rattle.std.specs.Prelude.{◌≡◌, ℕ, ◌+◌, ◌*◌, ◌^◌, ◌≤◌, ◌<◌, Float, length, get_or, true, List};
ghost use Rattle.std.specs.Float.{nan};
ghost use Rattle.definition.specs.Lists.{each, over};
ghost use Rattle.definition.specs.Elements.{nodes_of};
ghost use Rattle.definition.specs.Questions.{Question, accepted, asked, outcome};
ghost use Rattle.definition.specs.Operators.{InterpolationCall as Base, TripletLists as Lists, triplet_room, operator_of, OperatorPromise};
ghost use Rattle.definition.specs.Rows.{kept, point_triplets};
ghost use Rattle.triplets.specs.Lent.{triplet_lists, SameLists, Puts};
ghost use Rattle.lists.specs.Values.{values_of};
ghost use Rattle.operators.specs.Values.{triplets_till};

use calls::InterpolationCall;
use definition::{OperatorCounts, Refusal};
use triplets::{Strip, TripletLists};

// An operator of a call, of ROWS rows a point and COLUMNS columns a node: what the definition says of it, and what the code does for one point.
pub trait Operator<const ROWS: usize, const COLUMNS: usize> {
    // The mesh and the points of the call, the questions that it asks, and the value of a point by component, local node and displacement component.
    ghost base: { Self → Base };

    ghost questions: { Self → Lists → List Question };

    ghost value: { Self → ℕ → ℕ → ℕ → ℕ → Float };

    fn base(&self) -> &InterpolationCall<'_>
        ensures { result.now ≡ base self.now };

    // The questions one after the other, where `room` answers the one on the lists' room.
    fn questions(&self, room: bool) -> Result<(), Refusal>
        ensures { (lent : Lists) → room ≡ triplet_room lent (ROWS * COLUMNS * nodes_of (base self.now).mesh.family * length (base self.now).element_indices) → outcome result ≡ asked (questions self.now lent) tt };

    // The values of point p, over the lent array in the order of the triplets.
    fn put_values(&self, p: usize, out: &mut [f64; 72])
        ensures { out.new ≡ over (values_of ROWS COLUMNS (nodes_of (base self.now).mesh.family) (value self.now p)) out.old };

    ghost few_rows: { ROWS ≤ 4 };

    ghost few_columns: { COLUMNS ≤ 2 };

    // Where all its questions are answered yes there are few points, and the lists have room.
    ghost passed: { (x : Self) (lent : Lists) → accepted (tt {0}) ≡ asked (questions x lent) (tt {0}) →
        (length (base x).element_indices ≤ 1000000) × (triplet_room lent (ROWS * COLUMNS * nodes_of (base x).mesh.family * length (base x).element_indices) ≡ true) };
}

// ---- the triplets of one point
// The numbers of rows and of columns are constants of each operator, which the compiler knows where these functions are inlined.

// The triplets of one node in one row, from its entries: one a displacement component.
// Kept: each call has entries of its own, so a struct for them and the strip would be made anew each time, and is no plainer.
#[inline(always)]
#[tactic(auto, using(crate::proofs::Numbers::column_fits, triplets::proofs::Putting::puts_none), unfolding(definition::specs::Lists::each))]
fn put_node(row: usize, node: usize, entries: &[f64], strip: &mut Strip)
    requires { (node < 2 ^ 32) × (length entries.now ≤ 2) }
    ensures { Puts strip.old strip.new (each (λ d. kept row (length entries.now * node + d) (get_or entries.now d nan)) (length entries.now)) }
{
    let first = entries.len() * node;
    for (d, value) in entries.iter().enumerate() {
        strip.put_triplet(row, first + d, *value);
    }
}

// The triplets of one row, from its entries: `columns` a node, the element's nodes one after the other.
// Kept: as at `put_node`. The count stands beside the nodes, since the mesh's list may end early, and a node that it lacks is 0.
#[inline(always)]
#[tactic(auto, using(lists::proofs::Parts::part_fits, triplets::proofs::Putting::puts_none), unfolding(definition::specs::Lists::each))]
fn put_row(
    row: usize,
    count: usize,
    nodes: &[u32],
    columns: usize,
    entries: &[f64],
    strip: &mut Strip,
)
    requires { (count ≤ 9) × (columns ≤ 2) × (columns * count ≤ length entries.now) }
    ensures { Puts strip.old strip.new
        (each (λ j. each (λ d. kept row (columns * get_or nodes.now j 0 + d) (get_or entries.now (columns * j + d) nan)) columns) count) }
{
    for j in 0..count {
        let node = lists::get_or(nodes, j, 0) as usize;
        put_node(row, node, &entries[columns * j..][..columns], strip);
    }
}

// The rows of point p. The entries stand in the triplets' order: component, local node, displacement component.
// Kept: as at `put_row`.
#[inline(always)]
#[tactic(auto, using(lists::proofs::Parts::part_fits, crate::proofs::Numbers::row_fits, triplets::proofs::Putting::puts_none), unfolding(definition::specs::Lists::each, definition::specs::Rows::point_triplets))]
fn put_point(
    p: u32,
    rows: usize,
    count: usize,
    nodes: &[u32],
    columns: usize,
    entries: &[f64],
    strip: &mut Strip,
)
    requires { (rows ≤ 4) × (count ≤ 9) × (columns ≤ 2) × (columns * count * rows ≤ length entries.now) }
    ensures { Puts strip.old strip.new
        (point_triplets rows columns count (λ j. get_or nodes.now j 0) (λ i j d. get_or entries.now (columns * count * i + columns * j + d) nan) p) }
{
    let first = rows * p as usize;
    let width = columns * count;
    for i in 0..rows {
        put_row(
            first + i,
            count,
            nodes,
            columns,
            &entries[width * i..],
            strip,
        );
    }
}

// The row of point p in interpolation: one column a node, and the shape numbers as values.
// Kept: an operator's own width and its own array, which is long enough for any family, so that neither call asks anything of an argument; a struct for a point's nodes would be made anew each time, as at `put_point`.
pub fn put_shape_row(p: u32, family: usize, nodes: &[u32], shape: &[f64; 9], strip: &mut Strip)
    ensures { Puts strip.old strip.new
        (point_triplets 1 1 (nodes_of family) (λ j. get_or nodes.now j 0) (λ i j d. get_or shape.now j nan) p) }
{
    let count = elements::nodes_per_element(family);
    put_point(p, 1, count, nodes, 1, shape, strip);
}

// The four rows of point p in strain and stress: two columns a node. The entries stand in the triplets' order: component, local node, displacement component.
// Kept: an operator's own width and its own array, which is long enough for any family, so that neither call asks anything of an argument; a struct for a point's nodes would be made anew each time, as at `put_point`.
pub fn put_component_rows(
    p: u32,
    family: usize,
    nodes: &[u32],
    entries: &[f64; 72],
    strip: &mut Strip,
)
    ensures { Puts strip.old strip.new
        (point_triplets 4 2 (nodes_of family) (λ j. get_or nodes.now j 0) (λ i j d. get_or entries.now (2 * nodes_of family * i + 2 * j + d) nan) p) }
{
    let count = elements::nodes_per_element(family);
    put_point(p, 4, count, nodes, 2, entries, strip);
}

// ---- the triplets of all points

// The triplets of all points, from the lists' first place on; their number.
#[tactic(auto, using(crate::proofs::Numbers::entries_fit))]
fn put_points<const ROWS: usize, const COLUMNS: usize, O: Operator<ROWS, COLUMNS>>(
    operator: &O,
    lent: &mut TripletLists,
) -> usize
    requires { length (O.base operator.now).element_indices ≤ 1000000 }
    ensures { let q = O.base operator.now in Puts (record { lists = lent.entry; at = 0 }) (record { lists = lent.exit; at = result })
        (triplets_till q ROWS COLUMNS (O.value operator.now) (length q.element_indices)) }
{
    let call = operator.base();
    let mesh = call.mesh();
    let count = mesh.nodes_per_element();
    let mut entries = [0.0; 72];
    let mut strip = Strip { lists: lent, at: 0 };
    for p in 0..call.num_points() {
        operator.put_values(p, &mut entries);
        let nodes = mesh.element_nodes(call.element_at(p));
        put_point(p as u32, ROWS, count, nodes, COLUMNS, &entries, &mut strip);
    }
    strip.at
}

// ---- an operator

// Its questions one after the other, that on the room of the lists among them.
#[tactic(auto, using(crate::proofs::Numbers::places_fit))]
fn ask<const ROWS: usize, const COLUMNS: usize, O: Operator<ROWS, COLUMNS>>(
    operator: &O,
    lent: &TripletLists,
) -> Result<(), Refusal>
    ensures { outcome result ≡ asked (O.questions operator.now (triplet_lists lent.now)) tt }
{
    let call = operator.base();
    let places = ROWS * COLUMNS * call.mesh().nodes_per_element();
    let room = lent.has_room(places, call.num_points());
    operator.questions(room)
}

// Its triplets in the lent lists, and its numbers of rows, columns and triplets; or the first question whose answer is no, and lists as they were.
// Kept: that the lists are the same ones is a fact of two values, which no field and no model of one value can hold: a record over the two is the plainest.
#[tactic(auto, using(crate::proofs::Numbers::row_fits, crate::proofs::Numbers::columns_fit))]
pub fn build<const ROWS: usize, const COLUMNS: usize, O: Operator<ROWS, COLUMNS>>(
    operator: &O,
    lent: &mut TripletLists,
) -> Result<OperatorCounts, Refusal>
    ensures same { SameLists lent.old lent.new }
    ensures promise { let o = operator.now in OperatorPromise
        (operator_of (O.base o) (O.questions o (triplet_lists lent.old)) ROWS COLUMNS (O.value o))
        (triplet_lists lent.old) result (triplet_lists lent.new) }
{
    ask(operator, lent)?;
    let triplets = put_points(operator, lent);
    let call = operator.base();
    // `len() / 2` and not `num_nodes()`: the length of a list bounds the product.
    Ok(OperatorCounts {
        rows: ROWS * call.num_points(),
        columns: COLUMNS * (call.mesh().nodes_rz().len() / 2),
        triplets,
    })
}
