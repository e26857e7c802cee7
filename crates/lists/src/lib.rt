// The list vocabulary that the definitions of every crate share, and its laws: see specs/. There is no code here.
#![tactic(auto)]
