// A member to be divided by the pivot is taken out of the work area and loaded; its remainder is made monic and put back.
#![tactic(auto)]

ghost use Rattle.std.specs.Prelude.{◌≡◌, ◌≤◌, length, take, drop};
ghost use Rattle.residues.specs.Prime.{Prime};
ghost use Rattle.polynomials.specs.Poly.{monic};
ghost use Rattle.polynomials.specs.Packed.{terms};
ghost use Rattle.polynomials.specs.Working.{Holds};
ghost use Rattle.records.specs.Records.{view};
ghost use Rattle.branches.specs.Area.{Held, Leaves, Opened, with_open, WhenOpen, used, beyond};
ghost use Rattle.representation.specs.Represent.{Sound};
ghost use Rattle.members.specs.Members.{count, HasLeft, HasBehind, next_member, taken_out, put_in};

use branches::Member;
use polynomials::Term;
use records::Record;
use residues::Modulus;
use tables::Reason;

// How many members Q has.
pub fn count_q(w: &[Record]) -> usize
    requires { Opened w.now }
    ensures { WhenOpen w.now (λ b bs ss. result ≡ length b.Q) }
{
    let b = branches::open_branch(w);
    b.q as usize
}

// What is divided by the pivot: the member of P at a place, or the last so many members of Q.
#[derive(Clone, Copy)]
pub enum Dividends {
    InP(usize),
    InQ(usize),
}

impl Dividends {
    // How many members.
    pub fn count(self) -> usize
        ensures { result ≡ count self }
    {
        match self {
            Dividends::InP(_) => 1,
            Dividends::InQ(n) => n,
        }
    }
}

// Takes the next member to be divided out of the area and loads it into r: that of P, or the first of the last `left` of Q. How many terms.
pub fn take(w: &mut [Record], dividends: Dividends, left: usize, r: &mut [Term]) -> usize
    requires opened { Opened w.old }
    requires when_open { WhenOpen w.old (λ b bs ss. HasLeft dividends left b) }
    requires in_bounds { 256 ≤ length r.old }
    ensures when_open_2 { WhenOpen w.old (λ b bs ss.
        (result ≡ length (next_member dividends left b)) × (take result r.new ≡ next_member dividends left b)
        × Held (view w.new) (used w.old) (with_open (taken_out dividends left b) bs ss)) }
    ensures behind_stays { drop result r.new ≡ drop result r.old }
    ensures beyond_stays { beyond w.new ≡ beyond w.old }
{
    let member = match dividends {
        Dividends::InP(place) => Member::P(place),
        Dividends::InQ(_) => Member::Q(count_q(w) - left),
    };
    let n = branches::load(w, member, r);
    changes::remove(w, member);
    n
}

// Makes the first n terms of r monic and puts them into P, or into Q before its last `left` members; refused if there is no room. The terms behind stay.
pub fn put_back(
    w: &mut [Record],
    p: Modulus,
    dividends: Dividends,
    left: usize,
    r: &mut [Term],
    n: usize,
) -> Result<(), Reason>
    requires opened { Opened w.old × Prime p }
    requires when_open { WhenOpen w.old (λ b bs ss. HasBehind dividends left b) }
    requires n_in_bounds { (n ≤ length r.old) × Holds p (take n r.old) }
    ensures sound { Sound p (take n r.new) × (terms (take n r.new) ≡ monic p (terms (take n r.old)))
        × (drop n r.new ≡ drop n r.old) }
    ensures when_open_2 { WhenOpen w.old (λ b bs ss.
        Leaves (used w.old) (with_open b bs ss) (with_open (put_in dividends left (take n r.new) b) bs ss) result (view w.new)) }
    ensures beyond_stays { beyond w.new ≡ beyond w.old }
{
    // That p is below 2^31 is a fact of its type: so residues are words.
    let _ = p.get();
    scaling::monic(p, &mut r[..n]);
    match dividends {
        Dividends::InP(_) => puts::put_p(w, &r[..n]),
        Dividends::InQ(_) => puts::put_q(w, left, &r[..n]),
    }
}
