//! What a stream brings to what is held: laws of replays.
#![tactic(auto)]

mod laws;

pub use laws::{
    clash_law, import_kept_law, made_law, reader_law, replayed_law, small_law, stored_replay_law,
    stream_kept_law,
};
