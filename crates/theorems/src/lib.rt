// What follows from the promises of the calls, those with whole attributes too, whatever they are given: definitions and laws alone.
#![tactic(auto)]
