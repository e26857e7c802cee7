// The promises that span the parts: demands 2 and 3 over the wiring rule. See specs/ and proofs/. There is no code here.
#![tactic(auto)]
