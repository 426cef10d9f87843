//! A rack of cards, as it stands in `examples/card-rack`.

/// The model.
pub(in crate::run) const MODEL: &str = r#"{
  "format": "product-model 1", "root": "Rack", "instances": 5,
  "types": [
    {"name": "Item", "attributes": [{"name": "price_eur", "range": [0, 100]}]},
    {
      "name": "Rack", "parent": "Item",
      "attributes": [{"name": "price_eur", "range": [50, 50]}],
      "ports": [{"name": "cards", "kind": "part", "target": "Card", "links": [0, 4]}]
    },
    {"name": "Card", "parent": "Item", "attributes": [{"name": "channels", "range": [1, 20]}]},
    {
      "name": "Small", "parent": "Card",
      "attributes": [{"name": "price_eur", "range": [10, 10]}, {"name": "channels", "range": [5, 5]}]
    },
    {
      "name": "Big", "parent": "Card",
      "attributes": [{"name": "price_eur", "range": [18, 18]}, {"name": "channels", "range": [12, 12]}]
    }
  ],
  "rules": [{"name": "lines", "type": "Rack", "holds": ["<=", ["sum", "cards", "channels"], 30]}]
}"#;

/// What the customer wants.
pub(super) const ORDER: &str = r#"{
  "format": "order 1",
  "requests": [{"name": "twenty", "holds": [">=", ["sum", "cards", "channels"], 20]}],
  "criteria": [{"name": "cost_eur", "minimise": ["total", "Item", "price_eur"]}]
}"#;

/// Wishes that clash.
pub(super) const CLASH: &str = r#"{
  "format": "order 1",
  "requests": [
    {"name": "one_card", "holds": ["<=", ["count", "cards"], 1]},
    {"name": "twenty", "holds": [">=", ["sum", "cards", "channels"], 20]},
    {"name": "a_small_one", "holds": [">=", ["number", "Small"], 1]}
  ]
}"#;

/// The preferred product.
pub(super) const GOOD: &str = "preferred\n\
    0 Rack price_eur=50 cards:1,2\n\
    1 Big price_eur=18 channels=12\n\
    2 Big price_eur=18 channels=12\n";

/// A product that has too few channels.
pub(super) const BAD: &str = "preferred\n\
    0 Rack price_eur=50 cards:1,2\n\
    1 Small price_eur=10 channels=5\n\
    2 Big price_eur=18 channels=12\n";

/// Which wishes clash.
pub(super) const CLASHING: &str = "conflict 2\n1 one_card\n2 twenty\n";
