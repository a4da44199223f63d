//! What a list of journal parts stands for: definitions, and their laws. No code.
#![tactic(auto)]
