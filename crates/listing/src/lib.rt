// The listing's lines: the first line, a point's line and a refusal, each put on a page, a lent output with the place of its next byte.
// It knows the text of a line and the lists of an answer, and nothing of a mesh or a job.
// Bytes that have no room are left out, so no call asks anything of the place or of the output's length.
#![tactic(auto)]

mod lines;

ghost use Rattle.std.specs.Prelude.{[], ◌∷◌, ◌++◌};
ghost use Rattle.definition.specs.Job.{decimal, hexadecimal, refusal_line, counts_line, point_line};
ghost use Rattle.listing.specs.Page.{Puts};

use definition::{PointAnswer, QueryCounts};

// A lent output, and the place of its next byte.
#[derive(Drop)]
pub struct Page<'a> {
    pub out: &'a mut [u8],
    pub at: usize,
}

impl Page<'_> {
    // One byte, where there is room.
    // Kept: this and the printing below are by hand: a contract knows what `write!` has printed only where it answers `Ok`, and nothing says that it does. These calls cannot fail.
    #[tactic(auto, unfolding(crate::specs::Page::stored, crate::specs::Page::typed))]
    fn put_byte(&mut self, b: u8)
        ensures { Puts self.old self.new (b ∷ []) }
    {
        if self.at < self.out.len() {
            self.out[self.at] = b;
            self.at += 1;
        }
    }

    // The bytes of a text.
    // Kept: `put_byte` says why it prints by hand.
    #[tactic(auto, using(crate::proofs::Pages::puts_none))]
    fn put_text(&mut self, text: &[u8])
        ensures { Puts self.old self.new text.now }
    {
        for b in text {
            self.put_byte(*b);
        }
    }

    // n in decimal, and the byte after it.
    // Kept: `put_byte` says why it prints by hand.
    fn put_number(&mut self, n: usize, end: u8)
        ensures { Puts self.old self.new (decimal n ++ end ∷ []) }
    {
        let mut buffer = itoa::Buffer::new();
        self.put_text(buffer.format(n).as_bytes());
        self.put_byte(end);
    }

    // A float's bits by 16 hexadecimal digits, or nan, and the byte after it.
    // Kept: `put_byte` says why it prints by hand.
    fn put_float(&mut self, x: f64, end: u8)
        ensures { Puts self.old self.new (hexadecimal x ++ end ∷ []) }
    {
        if x.is_nan() {
            self.put_text(b"nan");
            self.put_byte(end);
        } else {
            let mut digits = [0u8; 16];
            hex::encode_to_slice(x.to_bits().to_be_bytes(), &mut digits).unwrap();
            self.put_text(&digits);
            self.put_byte(end);
        }
    }

    // The line of a refusal: its question's number and its place. At most 17 bytes for a number below 100 and a place below 100,000.
    // Kept: the question as a number, any of which was taken before there was an enum, and a narrower type would ask more of a caller.
    pub fn put_refusal(&mut self, question: u8, place: usize)
        ensures { Puts self.old self.new (refusal_line question place) }
    {
        self.put_text(b"refused ");
        self.put_number(question as usize, b' ');
        self.put_number(place, b'\n');
    }

    // The first line of a query's listing: points, elements with repeated nodes, points inside. At most 18 bytes for counts below 1,000.
    pub fn put_counts(&mut self, counts: QueryCounts)
        ensures { Puts self.old self.new (counts_line counts) }
    {
        self.put_text(b"query ");
        self.put_number(counts.points, b' ');
        self.put_number(counts.repeated, b' ');
        self.put_number(counts.inside, b'\n');
    }

    // The line of point p: its index, node, node distance, element, xi, eta, distance, face's element, face, s, distance.
    // At most 120 bytes for an index, a node and elements below 1,000 and a face below 10.
    pub fn put_point(&mut self, p: usize, answer: PointAnswer)
        ensures { Puts self.old self.new (point_line p answer) }
    {
        self.put_number(p, b' ');
        self.put_number(answer.node.node_index, b' ');
        self.put_float(answer.node.distance, b' ');
        self.put_number(answer.element.element_index, b' ');
        self.put_float(answer.element.reference.xi, b' ');
        self.put_float(answer.element.reference.eta, b' ');
        self.put_float(answer.element.distance, b' ');
        self.put_number(answer.face.element_index, b' ');
        self.put_number(answer.face.local_face as usize, b' ');
        self.put_float(answer.face.s, b' ');
        self.put_float(answer.face.distance, b'\n');
    }
}
