//! Why texts without faults have what their trees name: what their names stand for, their globals, and the files that
//! their OPENs add. No code runs here.
//!
//! Below stand `tal_rules`, whose faults a text hasn't, `tal_declarations` and `tal_names`, which say what it declares,
//! and `tal_meaning`, which makes its tree. The layers above take the lemmas of `proofs/`: `tal_pieces` for why a
//! printed program reads back, and `tal_laws` for what holds of every program that is read.
#![tactic(auto)]
