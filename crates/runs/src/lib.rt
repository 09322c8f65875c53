// Maximal runs of anything on positions: definitions and laws alone.
#![tactic(auto)]
