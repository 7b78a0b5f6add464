//! The words on told connections: what each call of a port does to what the port tells. No code,
//! only definitions and their lemmas, above the message machine.
#![tactic(auto)]
