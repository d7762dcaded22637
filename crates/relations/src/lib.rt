// A relation between labels: its pairs, the edges that the profiles give, and their closure.
#![tactic(auto)]

ghost use Rattle.std.specs.Prelude.{◌≡◌, ◌≤◌, ◌<◌, eqb};
ghost use Rattle.meaning.specs.Traces.{masked};
ghost use Rattle.relations.specs.Relations.{entry, Matrix, EmptyRow, MarkedAt, Added, label_at, edge, through, closed};

use events::mask_has;

// What the nodes of a rule give by event and next label: the profile, and the set of the temporal nodes to which the
// edge is fair. Of the events, those of the mask can happen.
#[derive(Clone, Copy)]
pub struct Tables<'a> {
    pub profiles: &'a [[u8; 128]; 16],
    pub fairs: &'a [[u8; 128]; 16],
    pub temporals: u8,
    pub events: usize,
    pub mask: u16,
    pub labels: usize,
    ghost sizes: { (events ≤ 16) × (1 ≤ labels) × (labels ≤ 128) },
}

impl Tables<'_> {
    // The label at an event before the label y: the remainder of the profile, mostly without a division.
    pub fn label_before(&self, e: usize, y: usize) -> usize
        requires { (e < 16) × (y < 128) }
        ensures { (result ≡ label_at self.now.labels self.now.profiles.now e y) × (result < self.now.labels) }
    {
        let profile = usize::from(self.profiles[e][y]);
        if profile < self.labels {
            profile
        } else if profile - self.labels < self.labels {
            profile - self.labels
        } else {
            profile % self.labels
        }
    }
}

// A relation between labels: y is bit y of row x where x is related to y.
#[derive(Clone, Copy)]
pub struct Relation {
    pub rows: [u128; 128],
}

impl Relation {
    // The edges of the events that can happen, and no others.
    pub fn of_edges(tables: &Tables<'_>) -> Relation
        ensures { Matrix tables.now.labels (edge (masked tables.now.events tables.now.mask) tables.now.labels tables.now.profiles.now) result.rows }
    {
        let mut relation = Relation { rows: [0; 128] };
        for e in 0..tables.events {
            if mask_has(tables.mask, e) {
                relation.add_event(tables, e);
            }
        }
        relation
    }

    // Adds the edges of an event.
    fn add_event(&mut self, tables: &Tables<'_>, e: usize)
        requires { e < 16 }
        ensures { Added tables.now.labels tables.now.labels (λ x y. eqb (label_at tables.now.labels tables.now.profiles.now e y) x) self.old.rows self.new.rows }
    {
        for y in 0..tables.labels {
            self.add(tables.label_before(e, y), y);
        }
    }

    // Adds the pair of x and y.
    fn add(&mut self, x: usize, y: usize)
        requires { (x < 128) × (y < 128) }
        ensures { MarkedAt x y self.old.rows self.new.rows }
    {
        self.rows[x] |= 1 << y;
    }

    pub fn has(&self, x: usize, y: usize) -> bool
        requires { (x < 128) × (y < 128) }
        ensures { result ≡ entry self.now.rows x y }
    {
        (self.rows[x] >> y) % 2 == 1
    }

    // Whether x leads nowhere.
    pub fn is_empty(&self, x: usize) -> bool
        requires { x < 128 }
        ensures { EmptyRow x self.now.rows result }
    {
        self.rows[x] == 0
    }

    // Adds the ways through k to each row. Through a label that leads nowhere, as many do, there is none.
    fn pass(&mut self, k: usize, labels: usize)
        requires { (labels ≤ 128) × (k < labels) }
        ensures { Matrix labels (through k (entry self.old.rows)) self.new.rows }
    {
        if self.is_empty(k) {
            return;
        }
        let row = self.rows[k];
        for x in 0..labels {
            if self.has(x, k) {
                self.rows[x] |= row;
            }
        }
    }

    // The ways through all labels.
    pub fn close(&mut self, labels: usize)
        requires { labels ≤ 128 }
        ensures { Matrix labels (closed labels (entry self.old.rows)) self.new.rows }
    {
        for k in 0..labels {
            self.pass(k, labels);
        }
    }
}
