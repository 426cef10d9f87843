//! What the state of a trail says of its instances, as reasons. A description is what a
//! propagator rests on that read the state: each of its literals is entailed, and a configuration
//! that has them is within the state's bounds.
ghost use Rattle.std.specs.Prelude.{◌≡◌, ◌<◌, ◌++◌, false, length, IfOk, OnOk, OnErr};
ghost use Rattle.std.specs.List.{flat_map};
ghost use Rattle.prod_model.specs.Taxonomy.{attributes_at, ports_at};
ghost use Rattle.state_space.specs.State.{number_made};
ghost use Rattle.state_space.specs.Entails.{all_have_attribute as all_have_attribute_of, all_have_port as all_have_port_of};
ghost use Rattle.state_space.specs.Descriptions.{kinds_description, attribute_description, port_description, counts_description, description};
ghost use Rattle.state_space.specs.Described.{entails_all};
ghost use Rattle.reason_trail.specs.Begun.{Begins};

use crate::appended::{push_counts, push_links, push_other_leaves, push_values};
use crate::reason::Reason;
use crate::trail::Trail;
use literal_book::{Literal, Literals};
use std::alloc::AllocError;

impl Trail {
    /// The description of made instance `i`, as a reason without requests and without the cut:
    /// that it is made, which leaves it is not, and, of each attribute and port that all its
    /// possible types have, the ends and gaps of the values, and the links with the bounds on
    /// later ones. A configuration that satisfies the model and has the descriptions of all made
    /// instances is covered. `AllocError` where memory runs out.
    pub fn describe(&self, i: u32) -> Result<Reason, AllocError>
        requires { i < number_made self.now.state }
        ensures described { IfOk result (λ r. r ≡ record {
          requests = 0;
          literals = description self.now.job.model self.now.state i;
          cut = false;
        }) }
        ensures entailed { entails_all self.now.job.model self.now.state
            (description self.now.job.model self.now.state i) }
    {
        // What all possible types have, the first one has.
        let kind = self.state().kinds(i).trailing_zeros();
        let mut literals = Literals::new(self.alloc);
        self.describe_kinds(i, &mut literals)?;
        self.describe_attributes(i, kind, &mut literals)?;
        self.describe_ports(i, kind, &mut literals)?;
        Ok(Reason {
            requests: 0,
            literals,
            cut: false,
        })
    }

    /// Appends that instance `i` is made, and the leaves that it can't be of. An instance of a
    /// leaf type that has these is of a possible type. After `AllocError` some may be appended.
    pub fn describe_kinds(&self, i: u32, into: &mut Literals) -> Result<(), AllocError>
        requires { i < number_made self.now.state }
        ensures described { OnOk result (into.new
            ≡ into.old ++ kinds_description self.now.job.model self.now.state i) }
        ensures begun { OnErr result (Begins into.old into.new) }
        ensures entailed { entails_all self.now.job.model self.now.state
            (kinds_description self.now.job.model self.now.state i) }
    {
        let kinds = self.state().kinds(i);
        into.push(Literal::Made { instance: i })?;
        push_other_leaves(i, self.job().problem(), kinds, into)
    }

    /// Appends the ends of the values that an attribute of instance `i` may have, and the gaps
    /// between them; nothing where some possible type lacks the attribute, since then no literal
    /// of it is entailed. An instance that has these, and the attribute, has a possible value. It
    /// takes a step for each gap. After `AllocError` some may be appended.
    pub fn describe_attribute(
        &self,
        i: u32,
        attr: u32,
        into: &mut Literals,
    ) -> Result<(), AllocError>
        requires { i < number_made self.now.state }
        ensures described { OnOk result (into.new
            ≡ into.old ++ attribute_description self.now.job.model self.now.state i attr) }
        ensures begun { OnErr result (Begins into.old into.new) }
        ensures entailed { entails_all self.now.job.model self.now.state
            (attribute_description self.now.job.model self.now.state i attr) }
    {
        if !self.all_have_attribute(i, attr) {
            return Ok(());
        }
        push_values(i, attr, self.state(), into)
    }

    /// Appends the made instances that a port of instance `i` must link, those that it can't, and
    /// the bounds on its links to later ones; nothing where some possible type lacks the port. An
    /// instance that has these, and the port, has possible links. After `AllocError` some may be
    /// appended.
    pub fn describe_port(&self, i: u32, port: u32, into: &mut Literals) -> Result<(), AllocError>
        requires { i < number_made self.now.state }
        ensures described { OnOk result (into.new
            ≡ into.old ++ port_description self.now.job.model self.now.state i port) }
        ensures begun { OnErr result (Begins into.old into.new) }
        ensures entailed { entails_all self.now.job.model self.now.state
            (port_description self.now.job.model self.now.state i port) }
    {
        if !self.all_have_port(i, port) {
            return Ok(());
        }
        let links = self.state().port(i, port);
        push_links(i, port, self.state().made(), &links, into)
    }

    /// Appends the least and the greatest number of all links of a port of instance `i`; nothing
    /// where some possible type lacks the port. These mean the same when another instance is
    /// made. After `AllocError` some may be appended.
    pub fn describe_counts(&self, i: u32, port: u32, into: &mut Literals) -> Result<(), AllocError>
        requires { i < number_made self.now.state }
        ensures described { OnOk result (into.new
            ≡ into.old ++ counts_description self.now.job.model self.now.state i port) }
        ensures begun { OnErr result (Begins into.old into.new) }
        ensures entailed { entails_all self.now.job.model self.now.state
            (counts_description self.now.job.model self.now.state i port) }
    {
        if !self.all_have_port(i, port) {
            return Ok(());
        }
        let links = self.state().port(i, port);
        push_counts(i, port, &links, into)
    }
}

/// What the description goes over.
impl Trail {
    /// Appends what `describe_attribute` says of each attribute of a type.
    fn describe_attributes(&self, i: u32, kind: u32, into: &mut Literals) -> Result<(), AllocError>
        requires made { i < number_made self.now.state }
        requires known { kind < length self.now.job.model.types }
        ensures described { OnOk result (into.new ≡ into.old
            ++ flat_map (λ a. attribute_description self.now.job.model self.now.state i a.id)
            (attributes_at self.now.job.model kind)) }
        ensures begun { OnErr result (Begins into.old into.new) }
    {
        for attribute in self.job().problem().attrs_of(kind) {
            self.describe_attribute(i, attribute.id, into)?;
        }
        Ok(())
    }

    /// Appends what `describe_port` says of each port of a type.
    fn describe_ports(&self, i: u32, kind: u32, into: &mut Literals) -> Result<(), AllocError>
        requires made { i < number_made self.now.state }
        requires known { kind < length self.now.job.model.types }
        ensures described { OnOk result (into.new ≡ into.old
            ++ flat_map (λ p. port_description self.now.job.model self.now.state i p.id)
            (ports_at self.now.job.model kind)) }
        ensures begun { OnErr result (Begins into.old into.new) }
    {
        for port in self.job().problem().ports_of(kind) {
            self.describe_port(i, port.id, into)?;
        }
        Ok(())
    }

    /// Whether each possible type of instance `i` has the attribute: only then a bound on its
    /// values fits.
    #[tactic(auto, unfolding(state_space::specs::Entails::fits))]
    fn all_have_attribute(&self, i: u32, attr: u32) -> bool
        ensures { result ≡ all_have_attribute_of self.now.job.model self.now.state i attr }
    {
        self.fits(&Literal::AtLeast {
            instance: i,
            attr,
            value: 0,
        })
    }

    /// Whether each possible type of instance `i` has the port: only then a bound on its links to
    /// later instances fits.
    #[tactic(auto, unfolding(state_space::specs::Entails::fits))]
    fn all_have_port(&self, i: u32, port: u32) -> bool
        ensures { result ≡ all_have_port_of self.now.job.model self.now.state i port }
    {
        self.fits(&Literal::FreshAtMost {
            instance: i,
            port,
            from: self.state().made(),
            count: 0,
        })
    }
}
