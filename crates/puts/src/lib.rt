// A polynomial put into P or Q of the open branch.
#![tactic(auto)]

ghost use Rattle.std.specs.Prelude.{◌≡◌, ◌≤◌, length};
ghost use Rattle.records.specs.Records.{view};
ghost use Rattle.stored.specs.Stored.{Storable};
ghost use Rattle.branches.specs.Area.{Leaves, Opened, with_open, put_into_p, put_into_q, WhenOpen, used, beyond};

use polynomials::Term;
use records::Record;
use tables::Reason;

// Puts f into P; refused if there is no room.
pub fn put_p(w: &mut [Record], f: &[Term]) -> Result<(), Reason>
    requires opened { Opened w.old }
    requires storable { Storable f.now }
    ensures when_open { WhenOpen w.old (λ b bs ss.
        Leaves (used w.old) (with_open b bs ss) (with_open (put_into_p f.now b) bs ss) result (view w.new)) }
    ensures beyond_stays { beyond w.new ≡ beyond w.old }
{
    let zero = f.is_empty();
    if zero {
        return Ok(());
    }
    let b = branches::open_branch(w);
    if finding::contains(w, b.first, b.p as usize, f) {
        return Ok(());
    }
    let to = stored::skip(w, b.first, b.p as usize);
    places::put_at(w, to, f, b.p + 1, b.q, b.t)
}

// Puts f into Q, before its last `left` members; refused if there is no room.
pub fn put_q(w: &mut [Record], left: usize, f: &[Term]) -> Result<(), Reason>
    requires opened { Opened w.old }
    requires when_open { WhenOpen w.old (λ b bs ss. left ≤ length b.Q) }
    requires storable { Storable f.now }
    ensures when_open_2 { WhenOpen w.old (λ b bs ss.
        Leaves (used w.old) (with_open b bs ss) (with_open (put_into_q left f.now b) bs ss) result (view w.new)) }
    ensures beyond_stays { beyond w.new ≡ beyond w.old }
{
    let dropped = branches::is_one(f);
    if dropped {
        return Ok(());
    }
    let b = branches::open_branch(w);
    let from = stored::skip(w, b.first, b.p as usize);
    let new = b.q as usize - left;
    if finding::contains(w, from, new, f) {
        return Ok(());
    }
    let to = stored::skip(w, from, new);
    places::put_at(w, to, f, b.p, b.q + 1, b.t)
}
