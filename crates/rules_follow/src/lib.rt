// Following a table: definitions and laws alone.
#![tactic(auto)]
