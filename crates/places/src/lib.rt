// A polynomial put in among those of the open branch, or taken out, at a record that is known.
#![tactic(auto)]

ghost use Rattle.std.specs.Prelude.{◌≡◌, List, ◌+◌, ◌≤◌, ◌<◌, length, get_or};
ghost use Rattle.records.specs.Records.{view, zero_record};
ghost use Rattle.stored.specs.Stored.{Storable};
ghost use Rattle.branches.specs.Area.{Stored, Held, Leaves, with_open, used, beyond};
ghost use Rattle.places.specs.Places.{PutAt, TakeAt, SomeOpen, free_records, resized};

use polynomials::Term;
use records::Record;
use tables::Reason;

// Puts f in at record `to`, so that P, Q and T have p, q and t members; refused if there is no room.
pub fn put_at(w: &mut [Record], to: usize, f: &[Term], p: u32, q: u32, t: u32) -> Result<(), Reason>
    requires storable { Storable f.now }
    requires some_open { SomeOpen (PutAt w.old to f.now p q t) }
    ensures leaves { (c : Stored) (bs ss : List Stored) (put : PutAt w.old to f.now p q t c bs ss)
        → Leaves (used w.old) (with_open put.b bs ss) (with_open c bs ss) result (view w.new) }
    ensures beyond_stays { beyond w.new ≡ beyond w.old }
{
    let [_, end, top, _] = w[0];
    let n = f.len() + 1;
    if ((top - end) as usize) < n {
        return Err(Reason::Room);
    }
    put_in(w, to, f, p, q, t);
    Ok(())
}

// The same where enough records are free.
#[tactic(auto, using(crate::proofs::PlaceLaws::put_start))]
pub fn put_in(w: &mut [Record], to: usize, f: &[Term], p: u32, q: u32, t: u32)
    requires storable { Storable f.now }
    requires some_open { SomeOpen (PutAt w.old to f.now p q t) }
    requires room { length f.now + 1 ≤ free_records w.old }
    ensures held { (c : Stored) (bs ss : List Stored) → PutAt w.old to f.now p q t c bs ss
        → Held (view w.new) (used w.old) (with_open c bs ss) }
    ensures beyond_stays { beyond w.new ≡ beyond w.old }
{
    let end = w[0][1];
    storing::insert(w, to, end as usize, f);
    resize(w, end + (f.len() + 1) as u32, p, q, t);
}

// Takes the polynomial at record `from` out, so that P, Q and T have p, q and t members.
#[tactic(auto, using(crate::proofs::PlaceLaws::take_start))]
pub fn take_at(w: &mut [Record], from: usize, p: u32, q: u32, t: u32)
    requires { SomeOpen (TakeAt w.old from p q t) }
    ensures held { (b : Stored) (bs ss : List Stored) → TakeAt w.old from p q t b bs ss
        → Held (view w.new) (used w.old) (with_open b bs ss) }
    ensures beyond_stays { beyond w.new ≡ beyond w.old }
{
    let end = w[0][1] as usize;
    let n = w[from][0] as usize + 1;
    storing::remove(w, from, n, end);
    resize(w, (end - n) as u32, p, q, t)
}

// Writes where the open branch ends, and how many members P, Q and T have.
#[tactic(auto, using(crate::proofs::PlaceLaws::rewritten))]
fn resize(w: &mut [Record], end: u32, p: u32, q: u32, t: u32)
    requires { (get_or (view w.old) 0 zero_record).w0 < length w.old }
    ensures { view w.new ≡ resized (view w.old) end p q t }
{
    let [at, _, top, systems] = w[0];
    let [_, _, _, under] = w[at as usize];
    w[at as usize] = [p, q, t, under];
    w[0] = [at, end, top, systems];
}
