// Copying by a compaction's plan, and the third demand: definitions and laws alone.
#![tactic(auto)]
