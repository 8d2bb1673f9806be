// No code: the worst books at the entry point, and the demands on a check of them.
#![tactic(auto)]
