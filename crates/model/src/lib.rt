// The bus as definitions and theorems; the crate has no code.

#![tactic(auto)]
