// The state of a run in the work area: the open branch, the waiting ones, and the listed systems; `specs/Area.antt` has the layout. The
// listed systems (`specs/Listed.antt`); whether a polynomial is 1; and what is read of the open branch: its own
// record (`specs/Open.antt`), whether Q holds a polynomial, and its members (`specs/Members.antt`).
#![tactic(auto)]

ghost use Rattle.std.specs.Prelude.{◌≡◌, [], ◌≤◌, ◌<◌, length, get_or, take, drop};
ghost use Rattle.stored.specs.Stored.{member, Storable};
ghost use Rattle.branches.specs.Area.{Area, HeldIn, Opened, WhenOpen, used};
ghost use Rattle.branches.specs.Listed.{listed_of};
ghost use Rattle.branches.specs.Members.{HasMember, member_of, members_before, behind};
ghost use Rattle.branches.specs.Open.{open_of};
ghost use Rattle.branches.specs.Words.{is_one};

use polynomials::Term;
use records::Record;

// How many of the records of a work area are used: 65,536 at most.
pub fn count_records(w: &[Record]) -> usize
    ensures { result ≡ used w.now }
{
    w.len().min(65536)
}

// The listed systems: the record at which they start, and how many there are.
#[derive(Clone, Copy)]
pub struct Listed {
    pub top: usize,
    pub count: u32,
}

// The listed systems, by the control record.
#[tactic(auto, using(records::proofs::Rows::word_2, records::proofs::Rows::word_3, crate::proofs::ControlLaws::listed_is))]
pub fn listed_systems(w: &[Record]) -> Listed
    requires { (a : Area) × HeldIn w.now a }
    ensures { (a : Area) → HeldIn w.now a → result ≡ listed_of (used w.now) a }
{
    let [_, _, top, count] = w[0];
    Listed {
        top: top as usize,
        count,
    }
}

// The open branch: the record at which its polynomials start, and how many members P, Q and T have.
#[derive(Clone, Copy)]
pub struct Open {
    pub first: usize,
    pub p: u32,
    pub q: u32,
    pub t: u32,
}

// The open branch, by its own record.
pub fn open_branch(w: &[Record]) -> Open
    requires { Opened w.now }
    ensures { WhenOpen w.now (λ b bs ss. result ≡ open_of b bs) }
{
    let at = w[0][0] as usize;
    let [p, q, t, _] = w[at];
    let first = at + 1;
    Open { first, p, q, t }
}

// The term 1.
const ONE: Term = Term {
    coefficient: 1,
    monomial: 0,
};

// Whether f is 1.
pub fn is_one(f: &[Term]) -> bool
    ensures { result ≡ is_one f.now }
{
    f == [ONE].as_slice()
}

// Whether Q holds f.
pub fn q_contains(w: &[Record], f: &[Term]) -> bool
    requires opened { Opened w.now }
    requires storable { Storable f.now }
    ensures { WhenOpen w.now (λ b bs ss. result ≡ member f.now b.Q) }
{
    let b = open_branch(w);
    let from = stored::skip(w, b.first, b.p as usize);
    finding::contains(w, from, b.q as usize, f)
}

// A member of P or of Q, by its place there.
#[derive(Clone, Copy)]
pub enum Member {
    P(usize),
    Q(usize),
}

// The record at which the member's polynomial starts.
pub fn head_of(w: &[Record], member: Member) -> usize
    requires opened { Opened w.now }
    requires when_open { WhenOpen w.now (λ b bs ss. HasMember member b) }
    ensures { WhenOpen w.now (λ b bs ss. result ≡ behind bs (members_before member b)) }
{
    let b = open_branch(w);
    match member {
        Member::P(i) => stored::skip(w, b.first, i),
        Member::Q(i) => stored::skip(w, stored::skip(w, b.first, b.p as usize), i),
    }
}

// How many terms the member has.
pub fn count_terms(w: &[Record], member: Member) -> usize
    requires opened { Opened w.now }
    requires when_open { WhenOpen w.now (λ b bs ss. HasMember member b) }
    ensures { WhenOpen w.now (λ b bs ss. result ≡ length (member_of member b)) }
{
    w[head_of(w, member)][0] as usize
}

// Loads the member into the first terms of `out`; how many.
pub fn load(w: &[Record], member: Member, out: &mut [Term]) -> usize
    requires opened { Opened w.now }
    requires when_open { WhenOpen w.now (λ b bs ss. HasMember member b) }
    requires in_bounds { WhenOpen w.now (λ b bs ss. length (member_of member b) ≤ length out.old) }
    ensures { WhenOpen w.now (λ b bs ss.
        (result ≡ length (member_of member b)) × (take result out.new ≡ member_of member b)
        × (drop result out.new ≡ drop result out.old)) }
{
    let from = head_of(w, member);
    stored::load(w, from, out)
}
