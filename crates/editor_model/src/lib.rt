//! Definitions: values and forms, the editor's state, and what each call does to it.
#![tactic(auto)]
