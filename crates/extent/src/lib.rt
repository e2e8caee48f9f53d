// How many records a written list takes. It is told by the list alone: its records stand one behind the other, so that its last one is the last
// term of the last head of the last system, or that head, that system or the header where there is none.
#![tactic(auto)]

ghost use Rattle.std.specs.Prelude.{◌≡◌, ◌≤◌, ◌<◌};
ghost use Rattle.tables.specs.Words.{records};
ghost use Rattle.extent.specs.Extent.{chain_last, extent};

// The last record of the chain that word j of record i starts; i itself where it starts none, which no chain ends at.
fn chain_last(list: &[u32], i: usize, j: usize) -> usize
    requires { (i < records list.now) × (j < 4) }
    ensures value { result ≡ chain_last list.now i j }
    ensures upper_bound { result < records list.now }
{
    let mut at = i;
    let mut index = words::word(list, i, j);
    // No iterator: an index that leads astray ends the walk too.
    while let Ok(Some(k)) = words::follow(list, at, index) {
        at = k;
        index = words::word(list, k, 3);
    }
    at
}

// How many records the list takes that stands in the first words, whatever follows it.
#[tactic(auto, unfolding(crate::specs::Extent::extent, crate::specs::Extent::behind))]
pub fn written_records(list: &[u32]) -> usize
    ensures value { result ≡ extent list.now }
    ensures upper_bound { result ≤ records list.now }
{
    if list.len() < 4 {
        return 0;
    }
    let system = chain_last(list, 0, 2);
    if system == 0 {
        return 1;
    }
    let u = chain_last(list, system, 1);
    if u != system {
        return chain_last(list, u, 0) + 1;
    }
    let t = chain_last(list, system, 0);
    if t != system {
        return chain_last(list, t, 0) + 1;
    }
    system + 1
}
