//! BIP 379's type tables, held against the rules of the `types` crate. It has no code.
//! `specs/Correctness.antt` and `specs/Malleability.antt` are the BIP's two tables in its own letters, `specs/Bip379.antt` puts them
//! together, and `specs/Agreement.antt` states where the port's rules and the BIP's agree and the named places where they differ.
#![tactic(auto)]
