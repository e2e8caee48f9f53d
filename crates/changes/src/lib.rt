// The open branch changed: a member of P or Q is taken out, or moved from P to T.
#![tactic(auto)]

ghost use Rattle.std.specs.Prelude.{◌≡◌, [], ◌<◌, length, get_or};
ghost use Rattle.stored.specs.Stored.{Storable};
ghost use Rattle.branches.specs.Members.{HasMember, without};
ghost use Rattle.branches.specs.Area.{Opened, closed, WhenOpen, OpenBecomes, beyond};

use branches::Member;
use polynomials::Term;
use records::Record;

// Takes the member out.
pub fn remove(w: &mut [Record], member: Member)
    requires opened { Opened w.old }
    requires when_open { WhenOpen w.old (λ b bs ss. HasMember member b) }
    ensures open_becomes { OpenBecomes (without member) w.old w.new }
    ensures beyond_stays { beyond w.new ≡ beyond w.old }
{
    let from = branches::head_of(w, member);
    let b = branches::open_branch(w);
    match member {
        Member::P(_) => places::take_at(w, from, b.p - 1, b.q, b.t),
        Member::Q(_) => places::take_at(w, from, b.p, b.q - 1, b.t),
    }
}

// Moves the member of P at place i, which is f, to the front of T.
pub fn close(w: &mut [Record], i: usize, f: &[Term])
    requires opened { Opened w.old }
    requires when_open { WhenOpen w.old (λ b bs ss. (i < length b.P) × (get_or b.P i [] ≡ f.now)) }
    requires storable { Storable f.now }
    ensures open_becomes { OpenBecomes (closed i) w.old w.new }
    ensures beyond_stays { beyond w.new ≡ beyond w.old }
{
    remove(w, Member::P(i));
    let b = branches::open_branch(w);
    let to = stored::skip(w, stored::skip(w, b.first, b.p as usize), b.q as usize);
    // There is room: as much has been taken out.
    places::put_in(w, to, f, b.p, b.q, b.t + 1);
}
