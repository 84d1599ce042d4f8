// Histories of calls in words, as a caller in C sees them: definitions and laws alone.
#![tactic(auto)]
