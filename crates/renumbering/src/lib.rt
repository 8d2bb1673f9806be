// No code: options renumbered by a permutation, and some of them reversed, in rules, orders and choices, as definitions, and the demands on them.
#![tactic(auto)]
