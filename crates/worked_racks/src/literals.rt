//! Literals of the worked rack and of its first card.
use config_value::Literal;

// Types count from `Item` 0, `Rack` 1, `Card` 2, `Small` 3 to `Big` 4, the attributes are price 0
// and power 1, and the port is cards 0.

/// There is a rack.
pub const RACK_MADE: Literal = Literal::Made { instance: 0 };

/// The second instance, its first card, is there.
pub const CARD_MADE: Literal = Literal::Made { instance: 1 };

/// The rack has a card that is not made yet.
pub const CARD_OWED: Literal = Literal::FreshAtLeast {
    instance: 0,
    port: 0,
    from: 1,
    count: 1,
};

/// The first card is small.
pub const CARD_SMALL: Literal = Literal::Kind {
    instance: 1,
    kind: 3,
};

/// The rack's price is at most 100, as each price is.
pub const AT_MOST_100: Literal = Literal::AtMost {
    instance: 0,
    attr: 0,
    value: 100,
};

/// The rack's price is at most 60.
pub const AT_MOST_60: Literal = Literal::AtMost {
    instance: 0,
    attr: 0,
    value: 60,
};

/// The rack's price is at most 40.
pub const AT_MOST_40: Literal = Literal::AtMost {
    instance: 0,
    attr: 0,
    value: 40,
};

/// The rack's price is not 7.
pub const NOT_7: Literal = Literal::ValueIsNot {
    instance: 0,
    attr: 0,
    value: 7,
};

/// The rack's price is not 8.
pub const NOT_8: Literal = Literal::ValueIsNot {
    instance: 0,
    attr: 0,
    value: 8,
};

/// The rack's price is not 9.
pub const NOT_9: Literal = Literal::ValueIsNot {
    instance: 0,
    attr: 0,
    value: 9,
};

/// The rack's price is at least 50.
pub const AT_LEAST_50: Literal = Literal::AtLeast {
    instance: 0,
    attr: 0,
    value: 50,
};
