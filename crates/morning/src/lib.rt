// No code: what a morning of orders gives, as a definition, and the demands on it. Crate `serving` has the code.
#![tactic(auto)]
