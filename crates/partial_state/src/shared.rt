//! What every possible type of an instance has.
ghost use Rattle.std.specs.Prelude.{◌≡◌, not, map};
ghost use Rattle.std.specs.Option.{option_copied};
ghost use Rattle.std.specs.List.{list_all};
ghost use Rattle.prod_model.specs.Forest.{is_a};
ghost use Rattle.state_space.specs.Sets.{has_number};
ghost use Rattle.state_space.specs.State.{IsState};
ghost use Rattle.state_space.specs.Entails.{all_kinds};
ghost use Rattle.partial_state.specs.Masks.{kinds_of};
ghost use Rattle.partial_state.specs.steps.Shared.{shared_domain_of, shared_port_of, shared_domain, shared_port};

use crate::kind_changes::leaves_under;
use crate::partial::Partial;
use crate::ports::MadePort;
use crate::row::InstanceRow;
use crate::values::AttributeDomain;
use prod_model::Problem;

impl Partial {
    /// The values of an attribute of instance `i`, where it is made and each of its possible types
    /// has the attribute. One test of masks.
    pub(crate) fn shared_domain(&self, i: u32, attr: u32) -> Option<&AttributeDomain>
        ensures { option_copied result ≡ shared_domain self.now i attr }
    {
        match self.made.get(i as usize) {
            Some(row) => row.shared_domain(self.attribute_types.as_slice(), attr),
            None => None,
        }
    }

    /// What a port of instance `i` may link, where it is made and each of its possible types has
    /// the port. One test of masks.
    pub(crate) fn shared_port(&self, i: u32, port: u32) -> Option<&MadePort>
        ensures { option_copied result ≡ shared_port self.now i port }
    {
        match self.made.get(i as usize) {
            Some(row) => row.shared_port(self.port_types.as_slice(), port),
            None => None,
        }
    }

    /// Whether instance `i` is made and each of its possible types is type `t` or under it.
    pub(crate) fn is_all_under(&self, problem: &Problem, i: u32, t: u32) -> bool
        requires { IsState problem.now self.now }
        ensures { result ≡ all_kinds self.now i (λ u. is_a problem.now u t) }
    {
        self.is_within(i, leaves_under(problem, t))
    }

    /// Whether instance `i` is made and none of its possible types is.
    pub(crate) fn is_none_under(&self, problem: &Problem, i: u32, t: u32) -> bool
        requires { IsState problem.now self.now }
        ensures { result ≡ all_kinds self.now i (λ u. not (is_a problem.now u t)) }
    {
        self.is_apart(i, leaves_under(problem, t))
    }

    /// Whether instance `i` is made and each of its possible types is one of the mask.
    fn is_within(&self, i: u32, mask: u128) -> bool
        ensures { result ≡ all_kinds self.now i (has_number (kinds_of mask)) }
    {
        match self.made.get(i as usize) {
            Some(row) => row.is_within(mask),
            None => false,
        }
    }

    /// Whether it is made and none of them is.
    fn is_apart(&self, i: u32, mask: u128) -> bool
        ensures { result ≡ all_kinds self.now i (λ u. not (has_number (kinds_of mask) u)) }
    {
        match self.made.get(i as usize) {
            Some(row) => row.is_apart(mask),
            None => false,
        }
    }
}

impl InstanceRow {
    /// The values of an attribute, where each possible type is one of those that have it. These are
    /// masks, each at the place of its id.
    fn shared_domain(&self, types: &[u128], attr: u32) -> Option<&AttributeDomain>
        ensures { option_copied result ≡ shared_domain_of (map kinds_of types.now) attr self.now }
    {
        match types.get(attr as usize) {
            Some(mask) => {
                if self.is_within(*mask) {
                    self.domain(attr)
                } else {
                    None
                }
            }
            None => None,
        }
    }

    /// What a port may link, where each possible type is one of those that have it.
    fn shared_port(&self, types: &[u128], port: u32) -> Option<&MadePort>
        ensures { option_copied result ≡ shared_port_of (map kinds_of types.now) port self.now }
    {
        match types.get(port as usize) {
            Some(mask) => {
                if self.is_within(*mask) {
                    self.port(port)
                } else {
                    None
                }
            }
            None => None,
        }
    }

    /// Whether each possible type is one of the mask.
    fn is_within(&self, mask: u128) -> bool
        ensures { result ≡ list_all (has_number (kinds_of mask)) self.now.kinds }
    {
        self.kinds.is_within(mask)
    }

    /// Whether none is.
    fn is_apart(&self, mask: u128) -> bool
        ensures { result ≡ list_all (λ u. not (has_number (kinds_of mask) u)) self.now.kinds }
    {
        self.kinds.is_apart(mask)
    }
}
