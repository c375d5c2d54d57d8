//! Definitions: characters and their decoding, texts with properties, places and marks, and undo records.
#![tactic(auto)]
