//! Predicates on finished configurations.
ghost use Rattle.std.specs.Prelude.{◌≡◌};
ghost use Rattle.config_value.specs.declared.literal.Literal.TheVariants.{Made as made};

/// What may hold of one instance of a configuration. Instances are numbered from 0, types are their
/// numbers in the model, and attributes and ports are ids. A literal holds only where there is that
/// instance, and its type has the attribute or port that is named.
#[derive(Clone, Copy, Debug, PartialEq, Eq, Hash)]
pub enum Literal {
    /// There is an instance of that number.
    Made {
        instance: u32,
    },
    /// The instance is there, and is of the type or of one under it.
    Kind {
        instance: u32,
        kind: u32,
    },
    /// The instance is there, and is neither of the type nor of one under it.
    NotKind {
        instance: u32,
        kind: u32,
    },
    /// The instance has the attribute, and its value is at most that one: a whole number, or the
    /// place of a word in the attribute's first declaration.
    AtMost {
        instance: u32,
        attr: u32,
        value: i64,
    },
    /// The instance has the attribute, and its value is at least that one.
    AtLeast {
        instance: u32,
        attr: u32,
        value: i64,
    },
    /// The instance has the attribute, and its value is another one.
    ValueIsNot {
        instance: u32,
        attr: u32,
        value: i64,
    },
    /// The instance has the port, and links instance `to` by it.
    Linked {
        instance: u32,
        port: u32,
        to: u32,
    },
    /// The instance has the port, and doesn't link instance `to` by it.
    NotLinked {
        instance: u32,
        port: u32,
        to: u32,
    },
    /// The instance has the port, and so many links by it at most.
    LinksAtMost {
        instance: u32,
        port: u32,
        count: u32,
    },
    /// The instance has the port, and so many links by it at least.
    LinksAtLeast {
        instance: u32,
        port: u32,
        count: u32,
    },
    /// The instance has the port, and so many of its links at most lead to instances numbered
    /// `from` or more.
    FreshAtMost {
        instance: u32,
        port: u32,
        from: u32,
        count: u32,
    },
    /// The instance has the port, and so many of its links at least lead to instances numbered
    /// `from` or more.
    FreshAtLeast {
        instance: u32,
        port: u32,
        from: u32,
        count: u32,
    },
}

/// Lists that keep their first literals in place fill what is free with this one.
impl Default for Literal {
    /// There is instance 0, which every configuration has.
    fn default() -> Literal
        ensures { result ≡ made 0 }
    {
        Literal::Made { instance: 0 }
    }
}
