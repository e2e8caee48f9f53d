// The first branch, and what becomes of an open branch at its end: it is dropped, or listed as a system.
#![tactic(auto)]

ghost use Rattle.std.specs.Prelude.{◌≡◌, [], ◌∷◌, ◌≤◌, length};
ghost use Rattle.records.specs.Records.{view};
ghost use Rattle.branches.specs.Area.{Area, Held, Opened, with_open, empty, has_branch, HeldIn, WhenOpen, used, beyond};

use records::Record;

// An empty first branch, whatever the records were.
#[tactic(auto, using(crate::proofs::TurnLaws::begun))]
pub fn begin(w: &mut [Record])
    requires { 2 ≤ length w.old }
    ensures held { Held (view w.new) (used w.old) (with_open empty [] []) }
    ensures beyond_stays { beyond w.new ≡ beyond w.old }
{
    let most = branches::count_records(w);
    w[0] = [1, 2, most as u32, 0];
    w[1] = [0, 0, 0, 0];
}

// Whether a branch is left.
pub fn is_open(w: &[Record]) -> bool
    requires { (a : Area) × HeldIn w.now a }
    ensures { (a : Area) → HeldIn w.now a → result ≡ has_branch a }
{
    w[0][0] != 0
}

// Drops the open branch.
#[tactic(auto, using(crate::proofs::TurnLaws::dropped))]
pub fn drop(w: &mut [Record])
    requires { Opened w.old }
    ensures when_open { WhenOpen w.old (λ b bs ss.
        Held (view w.new) (used w.old) (record { branches = bs; systems = ss })) }
    ensures beyond_stays { beyond w.new ≡ beyond w.old }
{
    let [at, _, top, systems] = w[0];
    let [_, _, _, under] = w[at as usize];
    w[0] = [under, at, top, systems];
}

// Lists the open branch as a system, with its P, which is empty at rule 2.
#[tactic(auto, using(crate::proofs::TurnLaws::counted, crate::proofs::TurnLaws::listed))]
pub fn list(w: &mut [Record])
    requires { Opened w.old }
    ensures when_open { WhenOpen w.old (λ b bs ss.
        Held (view w.new) (used w.old) (record { branches = bs; systems = b ∷ ss })) }
    ensures beyond_stays { beyond w.new ≡ beyond w.old }
{
    let [at, end, top, systems] = w[0];
    let [p, q, t, under] = w[at as usize];
    let to = top - (end - at);
    w.copy_within(at as usize..end as usize, to as usize);
    w[to as usize] = [p, q, t, 0];
    w[0] = [under, at, to, systems + 1];
}
