//! What a copy of a space is, and what opening makes of a store: definitions alone.
#![tactic(auto)]
