// The three lent lists of an operator, as one value.
#[derive(Drop)]
pub struct TripletLists<'a> {
    pub rows: &'a mut [usize],
    pub columns: &'a mut [usize],
    pub values: &'a mut [f64],
}

// The three lent lists, and the place of the next triplet.
#[derive(Drop)]
pub struct Strip<'l, 'a> {
    pub lists: &'l mut TripletLists<'a>,
    pub at: usize,
}
