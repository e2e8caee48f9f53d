// The branch that stays open at a split, built on top of the one set aside.
#![tactic(auto)]

ghost use Rattle.std.specs.Prelude.{◌≡◌, ◌∷◌, ◌≤◌, length};
ghost use Rattle.records.specs.Records.{view};
ghost use Rattle.stored.specs.Stored.{Storable};
ghost use Rattle.branches.specs.Area.{Leaves, Opened, with_open, kept_open, WhenOpen, used, beyond};

use polynomials::Term;
use records::Record;
use tables::Reason;

// Builds the branch that stays open on top of the one set aside, from its first n members of P with f put in at place
// i, its Q with the initial, and its T. Refused if there is no room.
pub fn keep_open(
    w: &mut [Record],
    i: usize,
    n: usize,
    f: &[Term],
    initial: &[Term],
) -> Result<(), Reason>
    requires opened { Opened w.old }
    requires when_open { WhenOpen w.old (λ c bs ss. (i ≤ n) × (n ≤ length c.P)) }
    requires storable { Storable f.now }
    requires storable_2 { Storable initial.now }
    ensures when_open_2 { WhenOpen w.old (λ c bs ss.
        Leaves (used w.old) (with_open c bs ss) (with_open (kept_open i n f.now initial.now c) (c ∷ bs) ss)
        result (view w.new)) }
    ensures beyond_stays { beyond w.new ≡ beyond w.old }
{
    let [at, end, top, systems] = w[0];
    let [p, q, t, _] = w[at as usize];
    let (at, end, p) = (at as usize, end as usize, p as usize);
    let front = stored::skip(w, at + 1, i);
    let back = stored::skip(w, front, n - i);
    let from_q = stored::skip(w, back, p - n);
    let from_t = stored::skip(w, from_q, q as usize);
    let size = 1
        + (back - (at + 1))
        + (f.len() + 1)
        + (from_t - from_q)
        + (initial.len() + 1)
        + (end - from_t);
    if top as usize - end < size {
        return Err(Reason::Room);
    }
    w[end] = [(n + 1) as u32, q + 1, t, at as u32];
    let mut to = storing::append_block(w, at + 1, front - (at + 1), end + 1);
    to = storing::append(w, to, f);
    to = storing::append_block(w, front, back - front, to);
    to = storing::append_block(w, from_q, from_t - from_q, to);
    to = storing::append(w, to, initial);
    to = storing::append_block(w, from_t, end - from_t, to);
    w[0] = [end as u32, to as u32, top, systems];
    Ok(())
}
