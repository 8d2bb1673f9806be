// No code: two books joined to one, as a definition, and the demands on it. Crate `joining` has the code.
#![tactic(auto)]
