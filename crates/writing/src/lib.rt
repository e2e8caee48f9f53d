// The written list of systems: from the work area, where they lie newest first, to the output, from its last record to its first.
#![tactic(auto)]

ghost use Rattle.std.specs.Prelude.{◌≡◌, List, [], ◌∷◌, ◌++◌, map, reverse, ◌+◌, ◌*◌, ◌≤◌, length, drop};
ghost use Rattle.std.proofs.Math.Seq.{paste};
ghost use Rattle.rules.specs.Written.{system_words, list_words, list_records};
ghost use Rattle.rules.specs.Room.{systems_size};
ghost use Rattle.records.specs.Records.{view};
ghost use Rattle.branches.specs.Area.{Stored, HeldIn};
ghost use Rattle.representation.specs.Represent.{AllListed, system_of};
ghost use Rattle.writing.specs.Listed.{StoredAt, listing_of};

use branches::Listed;
use records::Record;

// How many records the system at record i takes.
fn system_size(w: &[Record], i: usize) -> usize
    requires { (s : Stored) × StoredAt (view w.now) i s }
    ensures { (s : Stored) → StoredAt (view w.now) i s → result ≡ systems_size (system_of s ∷ []) }
{
    let [_, u, t, _] = w[i];
    stored::skip(w, i + 1, u as usize + t as usize) - i
}

// Writes the system at record i of the work area as record `at` and those behind it; `next` is the system that follows.
fn write_system(w: &[Record], i: usize, out: &mut [u32], at: usize, next: u32)
    requires { (s : Stored) × StoredAt (view w.now) i s × (4 * (at + systems_size (system_of s ∷ [])) ≤ length out.old) × (at + systems_size (system_of s ∷ []) ≤ 65536) }
    ensures { (s : Stored) → StoredAt (view w.now) i s
        → out.new ≡ paste out.old (4 * at) (system_words at next (system_of s)) (4 * systems_size (system_of s ∷ [])) }
{
    let [_, u, t, _] = w[i];
    let (u, t) = (u as usize, t as usize);
    let from_t = stored::skip(w, i + 1, u);
    let end = stored::skip(w, from_t, t);
    let to_u = at + 1 + (end - from_t);
    let first_t = if t == 0 { 0 } else { (at + 1) as u32 };
    let first_u = if u == 0 { 0 } else { to_u as u32 };
    records::write(out, at, [first_t, first_u, 0, next]);
    chains::write_heads(w, from_t, t, out, at + 1);
    chains::write_heads(w, i + 1, u, out, to_u);
}

// Writes the list of the systems in the work area.
pub fn write_list(w: &[Record], p: u32, n: u32, out: &mut [u32])
    requires held_in { (ss : List Stored) × HeldIn w.now (record { branches = []; systems = ss }) }
    requires ss_in_bounds { (ss : List Stored) → HeldIn w.now (record { branches = []; systems = ss })
        → (4 * list_records (reverse (map system_of ss)) ≤ length out.old) × AllListed ss }
    ensures { (ss : List Stored) → HeldIn w.now (record { branches = []; systems = ss })
        → out.new ≡ list_words (listing_of p n ss) ++ drop (4 * list_records (reverse (map system_of ss))) out.old }
{
    let Listed { top, count } = branches::listed_systems(w);
    let first = if count == 0 { 0 } else { 1 };
    records::write(out, 0, [p, n, first, count]);
    let mut i = top;
    let mut end = 1 + (branches::count_records(w) - top);
    let mut next = 0;
    for _i in 0..count {
        let size = system_size(w, i);
        let at = end - size;
        write_system(w, i, out, at, next);
        next = at as u32;
        end = at;
        i += size;
    }
}
