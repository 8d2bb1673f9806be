// No code: words and clauses with their variables under other numbers, as definitions, and the demands on them.
#![tactic(auto)]
