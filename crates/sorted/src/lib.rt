// Sorted tables and histories of calls on them: definitions and laws alone, for the crates that keep tables in octets.
#![tactic(auto)]
