// The bench examples of the scope, computed from the definitions. See specs/.
#![tactic(auto)]
