// A split: the initial goes into Q of the open branch, and a new branch is set aside under it.
#![tactic(auto)]

ghost use Rattle.std.specs.Prelude.{◌≡◌, false, [], ◌<◌, length, get_or};
ghost use Rattle.records.specs.Records.{view};
ghost use Rattle.stored.specs.Stored.{member, Storable};
ghost use Rattle.branches.specs.Words.{is_one};
ghost use Rattle.branches.specs.Area.{Leaves, Opened, split_area, unfinished_split, WhenOpen, used, beyond};

use branches::Member;
use polynomials::Term;
use records::Record;
use tables::Reason;

// The initial goes into Q, and a branch is set aside: with P without its member at place i, which is f, then the
// initial, then the rest; with Q as it was; with T. Refused if there is no room. The open branch is made the one set aside,
// and the other is built on top of it; without room it stops on the way (`unfinished_split`).
pub fn split(
    w: &mut [Record],
    i: usize,
    f: &[Term],
    initial: &[Term],
    rest: &[Term],
) -> Result<(), Reason>
    requires opened { Opened w.old }
    requires when_open { WhenOpen w.old (λ b bs ss.
        (i < length b.P) × (get_or b.P i [] ≡ f.now) × (is_one initial.now ≡ false) × (member initial.now b.Q ≡ false)) }
    requires storable { Storable f.now }
    requires storable_2 { Storable initial.now }
    requires storable_3 { Storable rest.now }
    ensures when_open_2 { WhenOpen w.old (λ b bs ss.
        Leaves (used w.old) (unfinished_split (used w.old) i initial.now rest.now b bs ss)
        (split_area i initial.now rest.now b bs ss) result (view w.new)) }
    ensures beyond_stays { beyond w.new ≡ beyond w.old }
{
    let b = branches::open_branch(w);
    changes::remove(w, Member::P(i));
    puts::put_p(w, initial)?;
    puts::put_p(w, rest)?;
    keeping::keep_open(w, i, b.p as usize - 1, f, initial)
}
