//! The rules of one group's members, as definitions: what a member keeps, what is sent, what one step may do. No code.
#![tactic(auto)]
