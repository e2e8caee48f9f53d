// What the work area holds, as a state of the rules: `specs/`. There is no code here.

#![tactic(auto)]
