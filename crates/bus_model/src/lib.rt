// A command on the bus, and a fresh bus, as definitions and theorems over every run; the code is what the functions of crate `bus`
// give back.

#![tactic(auto)]
