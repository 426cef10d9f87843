//! The laws of configurations, of their order and of conflicts, each as a function that a layer
//! above can call.
ghost use Rattle.config_value.specs.Laws.{KeyDetermines, RanksTotally, HasOnePreferred, HasOnePreferredConflict, PreferredConflictIsMinimal, PreferredConflictIsEmpty};
ghost use Rattle.config_value.specs.NumberedSentences.{NumberedSentences};
ghost use Rattle.config_value.specs.ShapedSentences.{ShapedSentences};
ghost use Rattle.config_value.specs.BoundsHold.{BoundsHold, ShapedIsSpelled};

/// A configuration is shaped exactly where it has its shape, place by place.
pub fn shaped_sentences()
    ensures { ShapedSentences }
{}

/// Instances are numbered in order exactly where each from 1 on is first mentioned by a lower one,
/// and, but for instance 1, after the first mention of the one before it.
pub fn numbered_sentences()
    ensures { NumberedSentences }
{}

/// On shaped configurations of one model the key determines the configuration.
pub fn key_determines()
    ensures { KeyDetermines }
{}

/// On shaped configurations of one model, ranking before is a strict total order.
pub fn ranks_totally()
    ensures { RanksTotally }
{}

/// There is at most one preferred configuration.
pub fn has_one_preferred()
    ensures { HasOnePreferred }
{}

/// There is at most one preferred conflict.
pub fn has_one_preferred_conflict()
    ensures { HasOnePreferredConflict }
{}

/// No proper part of the preferred conflict is a conflict.
pub fn preferred_conflict_is_minimal()
    ensures { PreferredConflictIsMinimal }
{}

/// The preferred conflict keeps no request exactly where no configuration satisfies the model.
pub fn preferred_conflict_is_empty()
    ensures { PreferredConflictIsEmpty }
{}

/// In a shaped configuration, at each instance under a type, the value of an expression lies within
/// its bounds there.
pub fn bounds_hold()
    ensures { BoundsHold }
{}

/// A shaped configuration of a model can be spelled.
pub fn shaped_is_spelled()
    ensures { ShapedIsSpelled }
{}
