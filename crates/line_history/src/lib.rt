// What the line program's table holds after any input: definitions and laws alone.
#![tactic(auto)]
