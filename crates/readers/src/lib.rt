// A walk along a chain: the table and the record number reached.
#![tactic(auto)]

ghost use Rattle.std.specs.Prelude.{◌≡◌, ◌↔◌, ◌<◌, IsTrue};
ghost use Rattle.tables.specs.Words.{word, records};

// Document 01 names this form: "one small reader: the table and the record number reached".
#[derive(Clone, Copy)]
pub struct Reader<'a> {
    pub table: &'a [u32],
    pub at: usize,
}

impl<'a> Reader<'a> {
    ghost use Rattle.readers.specs.Reader.{reader_at, stepped};

    // A reader at record i.
    pub fn new(table: &'a [u32], i: usize) -> Self
        ensures { result ≡ reader_at table.entry i }
    {
        Reader { table, at: i }
    }

    // The number of the record reached.
    pub fn at(self) -> usize
        ensures { result ≡ self.entry.at }
    {
        self.at
    }

    // Whether the chain has ended: index 0 leads to no record.
    pub fn is_over(self) -> bool
        ensures { IsTrue result ↔ (self.entry.at ≡ 0) }
    {
        self.at == 0
    }

    // Word j of the record reached.
    pub fn word(self, j: usize) -> u32
        requires { (self.at < records self.table.now) × (j < 4) }
        ensures { result ≡ word self.entry.table.now self.entry.at j }
    {
        words::word(self.table, self.at, j)
    }

    // The reader, moved on by the index in word j of the record reached.
    pub fn step(self, j: usize) -> Self
        requires { (self.at < records self.table.now) × (j < 4) }
        ensures { result ≡ stepped self.entry j }
    {
        Reader {
            at: words::index(self.table, self.at, j),
            ..self
        }
    }
}
