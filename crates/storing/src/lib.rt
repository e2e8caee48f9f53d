// Polynomials stored in the work area, appended, put in among the records there, and taken out.
#![tactic(auto)]

ghost use Rattle.std.specs.Prelude.{◌≡◌, ◌+◌, ◌-◌, ◌≤◌, length};
ghost use Rattle.std.proofs.Math.Seq.{paste};
ghost use Rattle.records.specs.Records.{view, moved};
ghost use Rattle.stored.specs.Stored.{poly_records, inserted, removed, Storable};

use polynomials::Term;
use records::Record;

// Stores f from record `at` on.
#[tactic(auto, using(records::proofs::Rows::view_set, records::proofs::Rows::length_view, crate::proofs::Laws::head_written, crate::proofs::Laws::term_written))]
fn store(w: &mut [Record], at: usize, f: &[Term])
    requires storable { Storable f.now }
    requires f_bound { at + (length f.now + 1) ≤ length w.old }
    ensures { view w.new ≡ paste (view w.old) at (poly_records f.now) (length f.now + 1) }
{
    w[at] = [f.len() as u32, 0, 0, 0];
    for (i, term) in f.iter().enumerate() {
        let high = (term.monomial >> 32) as u32;
        let low = (term.monomial % (1 << 32)) as u32;
        w[at + 1 + i] = [term.coefficient as u32, high, low, 0];
    }
}

// Stores f from record `to` on; where it ends.
pub fn append(w: &mut [Record], to: usize, f: &[Term]) -> usize
    requires storable { Storable f.now }
    requires f_bound { to + (length f.now + 1) ≤ length w.old }
    ensures { (result ≡ to + (length f.now + 1))
        × (view w.new ≡ paste (view w.old) to (poly_records f.now) (length f.now + 1)) }
{
    store(w, to, f);
    to + (f.len() + 1)
}

// Copies the n records from `from` on to those from `to` on; where they end.
#[tactic(auto, using(records::proofs::Rows::view_copied))]
pub fn append_block(w: &mut [Record], from: usize, n: usize, to: usize) -> usize
    requires { (from ≤ to) × (to + n ≤ length w.old) }
    ensures { (result ≡ to + n) × (view w.new ≡ moved (view w.old) from n to) }
{
    w.copy_within(from..from + n, to);
    to + n
}

// Stores f at record `at`, with the records there up to `end` moved up behind it.
#[tactic(auto, using(records::proofs::Rows::view_copied, records::proofs::Rows::length_view, crate::proofs::Laws::moved_then_stored))]
pub fn insert(w: &mut [Record], at: usize, end: usize, f: &[Term])
    requires storable { Storable f.now }
    requires at_le_end { (at ≤ end) × (end + (length f.now + 1) ≤ length w.old) }
    ensures { view w.new ≡ inserted (view w.old) at (end - at) (poly_records f.now) }
{
    w.copy_within(at..end, at + (f.len() + 1));
    store(w, at, f)
}

// Takes n records out at `at`, with the records behind them up to `end` moved down.
#[tactic(auto, using(records::proofs::Rows::view_copied, crate::proofs::Laws::moved_down))]
pub fn remove(w: &mut [Record], at: usize, n: usize, end: usize)
    requires { (at + n ≤ end) × (end ≤ length w.old) }
    ensures { view w.new ≡ removed (view w.old) at n (end - at - n) }
{
    w.copy_within(at + n..end, at);
}
