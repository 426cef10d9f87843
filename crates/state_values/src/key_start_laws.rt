//! The laws of the key start, each as a function that a layer above can call.
ghost use Rattle.state_values.specs.KeyStart.{KeyStartHolds, KeyStartDecides};

/// The key of a covered configuration is never before the key start of the state.
pub fn key_start_holds()
    ensures { KeyStartHolds }
{}

/// Where the key start comes after a key, so does the key of each covered configuration.
pub fn key_start_decides()
    ensures { KeyStartDecides }
{}
