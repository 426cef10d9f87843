//! Laws of what types have, each as a function that a layer above can call.
ghost use Rattle.prod_model.specs.Laws.{EntriesExtendTheParents, IdsArePlaces};

/// A type has what its parent has, narrowed by its own declarations, and then its new ones.
pub fn entries_extend_the_parents()
    ensures { EntriesExtendTheParents }
{}

/// The id of a new declaration is its place among the new declarations of all types.
pub fn ids_are_places()
    ensures { IdsArePlaces }
{}
