//! The laws of files, each as a function that a layer above can call.
ghost use Rattle.file_meaning.specs.Laws.{FaultlessIsValid, FaultlessIsValidOrder, StandsForOne, StandsForOneOrder, FirstModelFaultIsOne, FirstOrderFaultIsOne, BoundsIgnoreRules, PathsKeepOrder, PlacesKeepOrder, FirstMisformedIsFirst, FormedIsForm, FaultlessIsFormed, FaultlessIsDeclared, FaultlessIsBounded};

/// A value has no fault exactly where it stands for a valid model.
pub fn faultless_is_valid()
    ensures { FaultlessIsValid }
{}

/// A value has no fault for a valid model exactly where it stands for a valid order.
pub fn faultless_is_valid_order()
    ensures { FaultlessIsValidOrder }
{}

/// A value stands for at most one model.
pub fn stands_for_one()
    ensures { StandsForOne }
{}

/// A value stands for at most one order for a model.
pub fn stands_for_one_order()
    ensures { StandsForOneOrder }
{}

/// There is at most one first fault of a model file.
pub fn first_model_fault_is_one()
    ensures { FirstModelFaultIsOne }
{}

/// There is at most one first fault of an order file.
pub fn first_order_fault_is_one()
    ensures { FirstOrderFaultIsOne }
{}

/// What an expression is at a type doesn't depend on the rules.
pub fn bounds_ignore_rules()
    ensures { BoundsIgnoreRules }
{}

/// Paths in an expression have as places the order that they have as paths.
pub fn paths_keep_order()
    ensures { PathsKeepOrder }
{}

/// Two places in one value have the order that they have from the value.
pub fn places_keep_order()
    ensures { PlacesKeepOrder }
{}

/// The first misformed place that is found in a value is the first in the order of the document.
pub fn first_misformed_is_first()
    ensures { FirstMisformedIsFirst }
{}

/// A value no part of which is misformed is an expression of the forms of the language.
pub fn formed_is_form()
    ensures { FormedIsForm }
{}

/// A value without faults up to F08 declares what is right by itself, and parents and targets that
/// are types.
pub fn faultless_is_formed()
    ensures { FaultlessIsFormed }
{}

/// A value without faults up to F11 declares a model.
pub fn faultless_is_declared()
    ensures { FaultlessIsDeclared }
{}

/// An expression without own faults has bounds, of the kind that is needed, and nests at most 16
/// deep.
pub fn faultless_is_bounded()
    ensures { FaultlessIsBounded }
{}
