// No code: the steps as definitions, and the demands proved of them.
#![tactic(auto)]
