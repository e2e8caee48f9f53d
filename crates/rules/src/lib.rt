// The rules of the run, as definitions on lists of polynomials, and the claims about them: `specs/`. There is no code here.

#![tactic(auto)]
