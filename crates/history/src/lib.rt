// Histories of calls at the door, and what they leave: definitions and laws alone.
#![tactic(auto)]
