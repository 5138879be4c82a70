// The materials that a call is given, as one value.

ghost use Rattle.std.specs.Prelude.{◌≡◌, length, get_or, ◌/◌};
ghost use Rattle.definition.specs.Rows.{material_of, oriented_material};
ghost use Rattle.materials.specs.Given.{is_given, given_pairs};
ghost use Rattle.materials.specs.Sixteen.{sixteen};

use crate::{copy_material, rotate_material_in_plane};
use std::marker::Model;

// The material number of each element, sixteen numbers a material, and a pair (c, s) an element where the materials are turned.
#[derive(Drop)]
pub struct Materials<'a> {
    ids: &'a [usize],
    table: &'a [f64],
    pairs: Option<&'a [f64]>,
}

impl<'a> Model for Materials<'a> {
    ghost use Rattle.materials.specs.Given.{Given, is_given, given_pairs};

    ghost Value = { Given };

    ghost view = { λ m. record { ids = m.ids.now; table = m.table.now; pairs_given = is_given m.pairs; pairs = given_pairs m.pairs } };
}

impl<'a> Materials<'a> {
    pub fn new(ids: &'a [usize], table: &'a [f64], pairs: Option<&'a [f64]>) -> Materials<'a>
        ensures { result ≡ record { ids = ids.now; table = table.now; pairs_given = is_given pairs.entry; pairs = given_pairs pairs.entry } }
    {
        Materials { ids, table, pairs }
    }

    pub fn ids(&self) -> &'a [usize]
        ensures { result.now ≡ self.now.ids }
    {
        self.ids
    }

    // How many materials the table has.
    pub fn num_materials(&self) -> usize
        ensures { result ≡ length self.now.table / 16 }
    {
        self.table.len() / 16
    }

    pub fn table(&self) -> &'a [f64]
        ensures { result.now ≡ self.now.table }
    {
        self.table
    }

    pub fn pairs(&self) -> Option<&'a [f64]>
        ensures given { is_given result ≡ self.now.pairs_given }
        ensures value { given_pairs result ≡ self.now.pairs }
    {
        self.pairs
    }

    // The material number of an element.
    pub fn id(&self, element_index: usize) -> usize
        ensures { result ≡ get_or self.now.ids element_index 0 }
    {
        lists::get_or(self.ids, element_index, 0)
    }

    // A material of the table: the part of it that is its sixteen numbers. For a number outside the table it is empty, or what is left after the last whole material.
    #[tactic(auto, unfolding(definition::specs::Rows::material_of))]
    pub fn part(&self, number: usize) -> &'a [f64]
        ensures { result.now ≡ material_of self.now.table number }
    {
        lists::part(self.table, 16, number)
    }

    // A material of the table, turned by an element's pair where pairs are given.
    #[tactic(auto, unfolding(definition::specs::Rows::oriented_material))]
    pub fn oriented(&self, number: usize, element_index: usize) -> [f64; 16]
        ensures { result ≡ sixteen (oriented_material self.now.table number self.now.pairs_given self.now.pairs element_index) }
    {
        let material = self.part(number);
        match self.pairs {
            Some(pairs) => {
                let pair = lists::pair_at(pairs, element_index);
                rotate_material_in_plane(material, pair.x, pair.y)
            }
            None => copy_material(material),
        }
    }
}
