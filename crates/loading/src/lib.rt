// The first branch: the polynomials on a table's chains, put in table order.
#![tactic(auto)]

ghost use Rattle.std.specs.Prelude.{◌≡◌, List, ◌≤◌, ◌<◌, length, take};
ghost use Rattle.records.specs.Records.{view};
ghost use Rattle.stored.specs.Stored.{Storable};
ghost use Rattle.polynomials.specs.Poly.{Poly};
ghost use Rattle.polynomials.specs.Working.{Written, Holds};
ghost use Rattle.tables.specs.Words.{records};
ghost use Rattle.tables.specs.Read.{Input, good, read_head, read_heads, read_table};
ghost use Rattle.words.specs.Table.{TableOf};
ghost use Rattle.rules.specs.Branch.{Branch};
ghost use Rattle.rules.specs.Run.{start};
ghost use Rattle.branches.specs.Area.{Opened, Leaves, with_open, WhenOpen, used, beyond};
ghost use Rattle.representation.specs.Ready.{limits_in};
ghost use Rattle.loading.specs.Started.{Loaded, put_into, Alone, Filled, Started};

use polynomials::Term;
use records::Record;
use residues::Modulus;
use tables::Reason;
use words::Table;

// Where a polynomial is put.
#[derive(Clone, Copy)]
enum Target {
    P,
    Q,
}

impl Target {
    // Puts f there; refused if there is no room.
    fn put(self, work: &mut [Record], f: &[Term]) -> Result<(), Reason>
        requires opened { Opened work.old }
        requires storable { Storable f.now }
        ensures when_open { WhenOpen work.old (λ b bs ss.
            Leaves (used work.old) (with_open b bs ss) (with_open (put_into self f.now b) bs ss) result (view work.new)) }
        ensures beyond_stays { beyond work.new ≡ beyond work.old }
    {
        match self {
            Target::P => puts::put_p(work, f),
            Target::Q => puts::put_q(work, 0, f),
        }
    }
}

// Loads the polynomial with its head in record `head` into the first terms of `out`; how many.
fn load_head(table: Table<'_>, head: usize, out: &mut [Term]) -> usize
    requires inside { head < records table.words.now }
    requires is_read { (f : Poly) × (read_head table.words.now table.modulus table.variables head ≡ good f) }
    requires in_bounds { 256 ≤ length out.old }
    ensures { (f : Poly) → read_head table.entry.words.now table.entry.modulus table.entry.variables head ≡ good f
        → Written f result out.new × Holds table.entry.modulus (take result out.new) }
{
    let mut k = 0;
    // The chain is accepted: no index is tested again.
    let mut i = table.word(head, 0) as usize;
    while i != 0 {
        out[k] = Term {
            coefficient: u64::from(table.word(i, 0)),
            monomial: monomials::packed(table.word(i, 1), table.word(i, 2)),
        };
        k += 1;
        i = table.word(i, 3) as usize;
    }
    k
}

// Loads that polynomial made monic.
fn load_monic(table: Table<'_>, head: usize, out: &mut [Term]) -> usize
    requires inside { head < records table.words.now }
    requires is_read { (f : Poly) × (read_head table.words.now table.modulus table.variables head ≡ good f) }
    requires in_bounds { 256 ≤ length out.old }
    ensures { (f : Poly) → read_head table.entry.words.now table.entry.modulus table.entry.variables head ≡ good f
        → Loaded table.entry.modulus f result out.new }
{
    let m = load_head(table, head, out);
    scaling::monic(Modulus::new(u64::from(table.modulus)), &mut out[..m]);
    m
}

// Puts the polynomials from the index `first` on, which the header holds; refused if there is no room. r is scratch.
fn put_heads(
    table: Table<'_>,
    first: u32,
    target: Target,
    work: &mut [Record],
    r: &mut [Term],
) -> Result<(), Reason>
    requires are_read { (fs : List Poly) × (read_heads table.words.now table.modulus table.variables (records table.words.now) 0 first ≡ good fs) }
    requires alone { (c : Branch) × Alone table.modulus (used work.old) c (view work.old) }
    requires in_bounds { 256 ≤ length r.old }
    ensures filled { (fs : List Poly) (c : Branch)
        → read_heads table.entry.words.now table.entry.modulus table.entry.variables (records table.entry.words.now) 0 first ≡ good fs
        → Alone table.entry.modulus (used work.old) c (view work.old)
        → Filled table.entry.modulus (used work.old) target fs c result (view work.new) }
    ensures beyond_stays { beyond work.new ≡ beyond work.old }
{
    // The chain is accepted: no index is tested again.
    let mut i = first as usize;
    while i != 0 {
        let m = load_monic(table, i, r);
        target.put(work, &r[..m])?;
        i = table.word(i, 3) as usize;
    }
    Ok(())
}

// The first branch of an accepted table, whatever the records of the work area were; refused if there is no room. r is scratch.
#[tactic(auto, using(words::proofs::Laws::first_record))]
pub fn start(table: Table<'_>, work: &mut [Record], r: &mut [Term]) -> Result<(), Reason>
    requires header { TableOf table.words.now table }
    requires accepted { (t : Input) × (read_table table.words.now ≡ good t) }
    requires in_bounds { 256 ≤ length r.old }
    ensures started { (t : Input) → read_table table.entry.words.now ≡ good t
        → Started t (start (limits_in (used work.old)) t) (used work.old) result (view work.new) }
    ensures too_small { length work.old < 2 → work.new ≡ work.old }
    ensures beyond_stays { beyond work.new ≡ beyond work.old }
{
    // Fewer than two records: no room for the control record and the branch's own.
    if work.len() < 2 {
        return Err(Reason::Room);
    }
    turns::begin(work);
    put_heads(table, table.word(0, 2), Target::P, work, r)?;
    put_heads(table, table.word(0, 3), Target::Q, work, r)
}
