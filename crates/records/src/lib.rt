// Records of four words: those of a work area, and those of a list as its words have them. This crate alone knows how a record lies in words.
#![tactic(auto)]

ghost use Rattle.std.specs.Prelude.{◌≡◌, ◌*◌, ◌/◌, ◌<◌, length, take};
ghost use Rattle.std.proofs.Math.Seq.{paste};
ghost use Rattle.records.specs.Records.{capacity, rows};

// A record's four words.
pub type Record = [u32; 4];

// The records of a work area: as many as its words make, at most 65,536. What lies behind is no part of it.
pub fn area(words: &mut [u32]) -> &mut [Record]
    ensures rows { result.now ≡ take (capacity words.old) (rows words.old) }
    ensures length { length result.now ≡ capacity words.old }
{
    let (records, _) = words.as_chunks_mut::<4>();
    let n = records.len().min(65536);
    &mut records[..n]
}

// Writes record i of a list of systems, word for word.
pub fn write(words: &mut [u32], i: usize, row: Record)
    requires { i < length words.old / 4 }
    ensures { words.new ≡ paste words.old (4 * i) row 4 }
{
    words[4 * i..4 * i + 4].copy_from_slice(&row);
}
