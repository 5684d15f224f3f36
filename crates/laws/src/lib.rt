// General laws over lists, tables and numbers; the crate has no code.

#![tactic(auto)]
