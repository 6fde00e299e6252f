//! How a copy of a space is saved while its clients go on: definitions alone.
#![tactic(auto)]
