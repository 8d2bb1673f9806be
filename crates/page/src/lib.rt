// No code: the page of a check, as a definition, and what is demanded of it, proved.
#![tactic(auto)]
