// The lent buffers of the bus seen as the model's state: definitions and laws, no code.

#![tactic(auto)]
