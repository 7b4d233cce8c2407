// The lines of the listing of a broken plan: definitions and laws alone.
#![tactic(auto)]
