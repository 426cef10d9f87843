//! What the words of this crate have to do with those of `config_value`.
ghost use Rattle.criteria_order.specs.Laws.{PreferredIsFirstWanted};

/// The first configuration in rank order, without one to rank after and without extras, is the
/// preferred one.
pub fn preferred_is_first_wanted()
    ensures { PreferredIsFirstWanted }
{}
