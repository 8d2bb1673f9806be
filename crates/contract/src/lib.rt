// No code: what a check of a book and an order gives, as a definition, and demands 1 to 3 proved of it.
#![tactic(auto)]
