// The three lent lists of an operator: whether there is room for its triplets, and one triplet in its place. Its specs and proofs have what triplets put one after the other make of the lists.
// It knows which values are kept, and the lengths of lists: no mesh, no material and no order of the triplets.
// What has no place in all three lists is left out, so no call asks anything of a place or of the lists' lengths.
#![tactic(auto)]

mod lent;

ghost use Rattle.std.specs.Prelude.{◌≡◌, ◌&&◌, ◌*◌, leb};
ghost use Rattle.definition.specs.Operators.{triplet_room};
ghost use Rattle.definition.specs.Rows.{kept};
ghost use Rattle.triplets.specs.Lent.{triplet_lists, Puts};

pub use lent::{Strip, TripletLists};

// Whether lists of these lengths have per_point places for each of count points.
pub fn holds_triplets(
    count: usize,
    per_point: usize,
    rows: usize,
    columns: usize,
    values: usize,
) -> bool
    ensures { result ≡ leb (per_point * count) rows && leb (per_point * count) columns && leb (per_point * count) values }
{
    match per_point.checked_mul(count) {
        Some(places) => places <= rows && places <= columns && places <= values,
        None => false,
    }
}

impl<'a> TripletLists<'a> {
    // Whether the lists have n places for each of count points.
    #[tactic(auto, unfolding(definition::specs::Operators::triplet_room))]
    pub fn has_room(&self, n: usize, count: usize) -> bool
        ensures { result ≡ triplet_room (triplet_lists self.now) (n * count) }
    {
        holds_triplets(
            count,
            n,
            self.rows.len(),
            self.columns.len(),
            self.values.len(),
        )
    }
}

impl Strip<'_, '_> {
    // One triplet, where its value is not 0 of either sign and each list has the place.
    #[tactic(auto, unfolding(crate::specs::Strip::stored, crate::specs::Strip::written, definition::specs::Rows::kept, std::specs::Prelude::from_bits))]
    pub fn put_triplet(&mut self, row: usize, column: usize, value: f64)
        ensures { Puts self.old self.new (kept row column value) }
    {
        if value == 0.0 {
            return;
        }
        let at = self.at;
        let lists = &mut *self.lists;
        if lists.rows.len() <= at || lists.columns.len() <= at || lists.values.len() <= at {
            return;
        }
        lists.rows[at] = row;
        lists.columns[at] = column;
        lists.values[at] = value;
        self.at += 1;
    }
}
