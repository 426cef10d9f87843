//! The models that the tests are about. Types and rules stand in the order of their numbers.

/// One box of a width of 1 to 3.
pub const BOXES: &str = r#"{"format": "product-model 1", "root": "Box", "instances": 1, "types": [
    {"name": "Box", "attributes": [{"name": "width", "range": [1, 3]}]}]}"#;

/// A box of two colours, and one that has given up the first of them.
pub const COLOURS: &str = r#"{"format": "product-model 1", "root": "Box", "instances": 1, "types": [
    {"name": "Box", "attributes": [{"name": "colour", "words": ["red", "blue"]}]},
    {"name": "Blue", "parent": "Box", "attributes": [{"name": "colour", "words": ["blue"]}]}]}"#;

/// A rack with two ports, each of which holds up to two cards, and three instances at most.
pub const TWO_PORTS: &str =
    r#"{"format": "product-model 1", "root": "Rack", "instances": 3, "types": [
    {"name": "Rack", "ports": [
        {"name": "left", "kind": "part", "target": "Card", "links": [0, 2]},
        {"name": "right", "kind": "part", "target": "Card", "links": [0, 2]}]},
    {"name": "Card"}]}"#;

/// The same with exactly one card.
pub const ONE_CARD: &str =
    r#"{"format": "product-model 1", "root": "Rack", "instances": 3, "types": [
    {"name": "Rack", "ports": [
        {"name": "left", "kind": "part", "target": "Card", "links": [0, 2]},
        {"name": "right", "kind": "part", "target": "Card", "links": [0, 2]}]},
    {"name": "Card"}],
    "bounds": [{"type": "Card", "count": [1, 1]}]}"#;

/// A rack of two cards, each of which uses one driver.
pub const SHARED_DRIVERS: &str =
    r#"{"format": "product-model 1", "root": "Rack", "instances": 5, "types": [
    {"name": "Rack", "ports": [
        {"name": "cards", "kind": "part", "target": "Card", "links": [2, 2]}]},
    {"name": "Card", "ports": [
        {"name": "driver", "kind": "use", "target": "Driver", "links": [1, 1]}]},
    {"name": "Driver"}]}"#;

/// Nodes, each of which has one node as its part.
pub const NODE_PARTS: &str =
    r#"{"format": "product-model 1", "root": "Node", "instances": 3, "types": [
    {"name": "Node", "ports": [
        {"name": "next", "kind": "part", "target": "Node", "links": [1, 1]}]}]}"#;

/// Nodes, each of which uses one node.
pub const NODE_USES: &str =
    r#"{"format": "product-model 1", "root": "Node", "instances": 3, "types": [
    {"name": "Node", "ports": [
        {"name": "next", "kind": "use", "target": "Node", "links": [1, 1]}]}]}"#;

/// A rack of up to two cards, with two rules for cards: a power of at least 5, and then one of at
/// most 7.
pub const RULED_CARDS: &str =
    r#"{"format": "product-model 1", "root": "Rack", "instances": 3, "types": [
    {"name": "Rack", "ports": [
        {"name": "cards", "kind": "part", "target": "Card", "links": [0, 2]}]},
    {"name": "Card", "attributes": [{"name": "power", "range": [1, 9]}]}],
    "rules": [
        {"name": "strong", "type": "Card", "holds": [">=", ["attr", "power"], 5]},
        {"name": "weak", "type": "Card", "holds": ["<=", ["attr", "power"], 7]}]}"#;

/// Racks of up to four small and big cards, whose powers may sum up to 30.
pub const RACKS: &str = r#"{"format": "product-model 1", "root": "Rack", "instances": 5, "types": [
    {"name": "Item", "attributes": [{"name": "price", "range": [0, 100]}]},
    {"name": "Rack", "parent": "Item", "attributes": [{"name": "price", "range": [50, 50]}],
        "ports": [{"name": "cards", "kind": "part", "target": "Card", "links": [0, 4]}]},
    {"name": "Card", "parent": "Item", "attributes": [{"name": "power", "range": [1, 20]}]},
    {"name": "Small", "parent": "Card", "attributes": [
        {"name": "price", "range": [10, 10]}, {"name": "power", "range": [5, 5]}]},
    {"name": "Big", "parent": "Card", "attributes": [
        {"name": "price", "range": [18, 18]}, {"name": "power", "range": [12, 12]}]}],
    "rules": [{"name": "load", "type": "Rack", "holds": ["<=", ["sum", "cards", "power"], 30]}]}"#;

/// The same with at most two cards.
pub const FEW_CARDS: &str =
    r#"{"format": "product-model 1", "root": "Rack", "instances": 5, "types": [
    {"name": "Item", "attributes": [{"name": "price", "range": [0, 100]}]},
    {"name": "Rack", "parent": "Item", "attributes": [{"name": "price", "range": [50, 50]}],
        "ports": [{"name": "cards", "kind": "part", "target": "Card", "links": [0, 4]}]},
    {"name": "Card", "parent": "Item", "attributes": [{"name": "power", "range": [1, 20]}]},
    {"name": "Small", "parent": "Card", "attributes": [
        {"name": "price", "range": [10, 10]}, {"name": "power", "range": [5, 5]}]},
    {"name": "Big", "parent": "Card", "attributes": [
        {"name": "price", "range": [18, 18]}, {"name": "power", "range": [12, 12]}]}],
    "bounds": [{"type": "Card", "count": [0, 2]}],
    "rules": [{"name": "load", "type": "Rack", "holds": ["<=", ["sum", "cards", "power"], 30]}]}"#;

/// Racks of cards with a bus, and spare ones.
pub const BUSES: &str = r#"{"format": "product-model 1", "root": "Rack", "instances": 4, "types": [
    {"name": "Item"},
    {"name": "Rack", "parent": "Item", "ports": [
        {"name": "cards", "kind": "part", "target": "Card", "links": [0, 3]},
        {"name": "spare", "kind": "part", "target": "Card", "links": [0, 3]}]},
    {"name": "Card", "parent": "Item", "attributes": [
        {"name": "power", "range": [1, 9]}, {"name": "bus", "words": ["sata", "sas"]}]},
    {"name": "Small", "parent": "Card"},
    {"name": "Big", "parent": "Card"}]}"#;

/// Racks of up to two cards, each of which knows its rack: the ports are each other's inverse.
pub const HOMES: &str = r#"{"format": "product-model 2", "root": "Rack", "instances": 3, "types": [
    {"name": "Rack", "ports": [
        {"name": "cards", "kind": "part", "target": "Card", "links": [0, 2], "inverse": "home"}]},
    {"name": "Card", "ports": [
        {"name": "home", "kind": "use", "target": "Rack",
            "links": [1, 1], "inverse": "cards"}]}]}"#;

/// Nodes that link each other by a port that is its own inverse.
pub const PEERS: &str = r#"{"format": "product-model 2", "root": "Node", "instances": 3, "types": [
    {"name": "Node", "ports": [
        {"name": "peers", "kind": "use", "target": "Node",
            "links": [0, 3], "inverse": "peers"}]}]}"#;
