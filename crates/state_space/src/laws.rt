//! The laws of partial states, each as a function that a layer above can call.
ghost use Rattle.state_space.specs.Covers.{CoversSentences};
ghost use Rattle.state_space.specs.Declared.{ValidHasIds, ValidHasWholeDomains, ValidHasFew};
ghost use Rattle.state_space.specs.Described.{DescriptionIsEntailed, KindsAreDescribed, AttributeIsDescribed, PortIsDescribed, CountsAreDescribed, DescribedIsCovered};
ghost use Rattle.state_space.specs.Laws.{RootIsState, RootCovers, KindsNarrowed, DomainNarrowed, PortNarrowed, ChangeIsExact, EmptyCoversNone, ChangeEntails, EachKeepsState, NarrowingKeepsState, GenerationKeepsState, GenerationKeeps, OwedIsLinked, EntailedHolds, ChangeKeeps, FittingIsEntailed, FittingKeepsState, OppositeHolds, WholeCoversOnlyOne, WholeCoversNoMore, WholeCoversItsOwn, WholeCoversOne, SizeIsPositive, EachIsLess, SmallerIsLess, GenerationIsLess, FittingIsLess, UndoneInTurn, EachIsUndone, GenerationIsUndone};
ghost use Rattle.state_space.specs.Unshared.{RootIsWide, ChangeKeepsWide};

/// A configuration is covered exactly where the sentences of covering hold.
pub fn covers_sentences()
    ensures { CoversSentences }
{}

/// In a valid model each id is the place of a first declaration, and a type has each id once.
pub fn valid_has_ids()
    ensures { ValidHasIds }
{}

/// In a valid model the values of an attribute at a type are values of its whole domain.
pub fn valid_has_whole_domains()
    ensures { ValidHasWholeDomains }
{}

/// A valid model has few declarations, values, links, types and instances.
pub fn valid_has_few()
    ensures { ValidHasFew }
{}

/// The root state is a state of its problem.
pub fn root_is_state()
    ensures { RootIsState }
{}

/// The root covers every configuration that satisfies the model.
pub fn root_covers()
    ensures { RootCovers }
{}

/// A narrowing of types leaves the covered configurations whose instance is of a type that passes.
pub fn kinds_narrowed()
    ensures { KindsNarrowed }
{}

/// A narrowing of a domain leaves those whose instance has a value that passes, or lacks the
/// attribute.
pub fn domain_narrowed()
    ensures { DomainNarrowed }
{}

/// A narrowing of a port leaves those whose instance has links that pass, or lacks the port.
pub fn port_narrowed()
    ensures { PortNarrowed }
{}

/// A narrowing by a literal that fits covers exactly those covered before in which it holds.
pub fn change_is_exact()
    ensures { ChangeIsExact }
{}

/// Where it is empty there are none.
pub fn empty_covers_none()
    ensures { EmptyCoversNone }
{}

/// Where a narrowing by a literal that fits is not empty, the literal is entailed afterwards.
pub fn change_entails()
    ensures { ChangeEntails }
{}

/// Each narrowing, of types, a domain or a port, keeps a state of a problem one.
pub fn each_keeps_state()
    ensures { EachKeepsState }
{}

/// A narrowing by a literal keeps a state of a problem one.
pub fn narrowing_keeps_state()
    ensures { NarrowingKeepsState }
{}

/// A generation keeps a state of a problem one.
pub fn generation_keeps_state()
    ensures { GenerationKeepsState }
{}

/// A generation keeps what is covered, shaped and numbered, and links a later instance by the first
/// open port.
pub fn generation_keeps()
    ensures { GenerationKeeps }
{}

/// Where an instance has to be made for the first open port, that port links a later one in every
/// covered configuration.
pub fn owed_is_linked()
    ensures { OwedIsLinked }
{}

/// An entailed literal holds in every covered configuration.
pub fn entailed_holds()
    ensures { EntailedHolds }
{}

/// A change by any literal that fits keeps what is covered, shaped and numbered, and in which the
/// literal holds.
pub fn change_keeps()
    ensures { ChangeKeeps }
{}

/// Where a change by any literal that fits is not empty, the literal is entailed afterwards.
pub fn fitting_is_entailed()
    ensures { FittingIsEntailed }
{}

/// A change by any literal that fits keeps a state of a problem one.
pub fn fitting_keeps_state()
    ensures { FittingKeepsState }
{}

/// Of a literal that fits and its opposite exactly one holds in each covered configuration.
pub fn opposite_holds()
    ensures { OppositeHolds }
{}

/// Every covered configuration of as many instances as a whole state has made is the configuration
/// of the state.
pub fn whole_covers_only_one()
    ensures { WholeCoversOnlyOne }
{}

/// A whole state covers no numbered configuration of another number of instances than are made.
pub fn whole_covers_no_more()
    ensures { WholeCoversNoMore }
{}

/// Every numbered configuration that a whole state covers is the configuration of the state.
pub fn whole_covers_its_own()
    ensures { WholeCoversItsOwn }
{}

/// A whole state covers its configuration, and no other one of that many instances.
pub fn whole_covers_one()
    ensures { WholeCoversOne }
{}

/// The size of a state is positive.
pub fn size_is_positive()
    ensures { SizeIsPositive }
{}

/// Each narrowing that is smaller lowers the size.
pub fn each_is_less()
    ensures { EachIsLess }
{}

/// A smaller narrowing by a literal lowers the size.
pub fn smaller_is_less()
    ensures { SmallerIsLess }
{}

/// A generation lowers the size.
pub fn generation_is_less()
    ensures { GenerationIsLess }
{}

/// A change by any literal that fits lowers the size where it is smaller.
pub fn fitting_is_less()
    ensures { FittingIsLess }
{}

/// Going back over two logs is going back over the later and then over the earlier one.
pub fn undone_in_turn()
    ensures { UndoneInTurn }
{}

/// Going back over the old value of a narrowing brings the state back.
pub fn each_is_undone()
    ensures { EachIsUndone }
{}

/// Going back over the log of a generation brings the state back.
pub fn generation_is_undone()
    ensures { GenerationIsUndone }
{}

/// What a state says of a made instance, it entails.
pub fn description_is_entailed()
    ensures { DescriptionIsEntailed }
{}

/// An instance of a leaf type that has the description of the types is of a possible one.
pub fn kinds_are_described()
    ensures { KindsAreDescribed }
{}

/// An instance that has the description of an attribute, and has the attribute, has a possible
/// value.
pub fn attribute_is_described()
    ensures { AttributeIsDescribed }
{}

/// An instance that has the description of a port, and has the port, has possible links.
pub fn port_is_described()
    ensures { PortIsDescribed }
{}

/// An instance that has the description of the number of a port's links, and has the port, has as
/// many links.
pub fn counts_are_described()
    ensures { CountsAreDescribed }
{}

/// A configuration that satisfies the model and has the descriptions of all made instances is
/// covered, where the state is wide in what only some types have.
pub fn described_is_covered()
    ensures { DescribedIsCovered }
{}

/// What not all possible types have is in the root state as wide as each of them allows.
pub fn root_is_wide()
    ensures { RootIsWide }
{}

/// A change by any literal that fits keeps a state so.
pub fn change_keeps_wide()
    ensures { ChangeKeepsWide }
{}
