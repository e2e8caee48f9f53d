// Stored polynomials written as a chain: from the work area, where each is a head and its terms in a row, to the records of the output, linked.
#![tactic(auto)]

ghost use Rattle.std.specs.Prelude.{◌≡◌, map, ◌+◌, ◌*◌, ◌-◌, ◌≤◌, ◌<◌, length};
ghost use Rattle.std.proofs.Math.Seq.{paste};
ghost use Rattle.polynomials.specs.Packed.{terms};
ghost use Rattle.rules.specs.Written.{terms_words, heads_words};
ghost use Rattle.records.specs.Records.{view};
ghost use Rattle.stored.specs.Stored.{size_at, poly_at, skip_to, polys_at};

use records::Record;

// Writes the terms of the polynomial at record `from` of the work area to the records from `to` on.
#[tactic(auto, using(crate::proofs::Laws::rows))]
fn write_terms(w: &[Record], from: usize, out: &mut [u32], to: usize)
    requires from_bound { (from < length w.now) × (from + 1 + size_at (view w.now) from ≤ length w.now) }
    requires from_in_bounds { (4 * (to + size_at (view w.now) from) ≤ length out.old) × (to + size_at (view w.now) from ≤ 65536) }
    ensures { out.new ≡ paste out.old (4 * to) (terms_words to (terms (poly_at (view w.now) from))) (4 * size_at (view w.now) from) }
{
    let n = w[from][0] as usize;
    for i in 0..n {
        let [c, high, low, _] = w[from + 1 + i];
        let next = if i + 1 < n { (to + i + 1) as u32 } else { 0 };
        records::write(out, to + i, [c, high, low, next]);
    }
}

// Writes the k polynomials from record `from` of the work area on as a chain of heads from record `to` on, each followed by its terms.
#[tactic(auto, using(crate::proofs::Laws::chain))]
pub fn write_heads(w: &[Record], from: usize, k: usize, out: &mut [u32], to: usize)
    requires k_bound { skip_to (view w.now) from k ≤ length w.now }
    requires from_in_bounds { (4 * (to + (skip_to (view w.now) from k - from)) ≤ length out.old) × (to + (skip_to (view w.now) from k - from) ≤ 65536) }
    ensures { out.new ≡ paste out.old (4 * to) (heads_words to (map terms (polys_at (view w.now) from k)))
        (4 * (skip_to (view w.now) from k - from)) }
{
    let mut i = from;
    let mut at = to;
    for j in 0..k {
        let n = w[i][0] as usize;
        let first = if n == 0 { 0 } else { (at + 1) as u32 };
        let next = if j + 1 == k { 0 } else { (at + 1 + n) as u32 };
        records::write(out, at, [first, 0, 0, next]);
        write_terms(w, i, out, at + 1);
        i += 1 + n;
        at += 1 + n;
    }
}
