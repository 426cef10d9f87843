//! A control cabinet, as it stands in `examples/control-cabinet`.

/// The model.
pub(super) const MODEL: &str = r#"{
  "format": "product-model 1", "root": "Cabinet", "instances": 40,
  "types": [
    {
      "name": "Item",
      "attributes": [
        {"name": "price_cents", "range": [0, 120000]}, {"name": "heat_w", "range": [0, 80]}
      ]
    },
    {
      "name": "Cabinet", "parent": "Item",
      "attributes": [
        {"name": "heat_w", "range": [0, 0]}, {"name": "height_mm", "range": [800, 2000]},
        {"name": "walls_remove_w", "range": [60, 150]},
        {"name": "protection", "words": ["IP54", "IP65"]}
      ],
      "ports": [
        {"name": "rails", "kind": "part", "target": "Rail", "links": [1, 5]},
        {"name": "cooling", "kind": "part", "target": "Cooling", "links": [0, 2]}
      ]
    },
    {
      "name": "WallCabinet", "parent": "Cabinet",
      "attributes": [
        {"name": "price_cents", "range": [48900, 48900]},
        {"name": "height_mm", "range": [800, 800]},
        {"name": "walls_remove_w", "range": [60, 60]}
      ],
      "ports": [{"name": "rails", "kind": "part", "target": "ShortRail", "links": [1, 3]}]
    },
    {
      "name": "FloorCabinet", "parent": "Cabinet",
      "attributes": [
        {"name": "price_cents", "range": [112000, 112000]},
        {"name": "height_mm", "range": [2000, 2000]},
        {"name": "walls_remove_w", "range": [150, 150]}
      ],
      "ports": [{"name": "rails", "kind": "part", "target": "LongRail", "links": [2, 5]}]
    },
    {
      "name": "Rail", "parent": "Item",
      "attributes": [
        {"name": "heat_w", "range": [0, 0]}, {"name": "length_mm", "range": [400, 800]}
      ],
      "ports": [{"name": "devices", "kind": "part", "target": "Device", "links": [0, 16]}]
    },
    {
      "name": "ShortRail", "parent": "Rail",
      "attributes": [
        {"name": "price_cents", "range": [900, 900]}, {"name": "length_mm", "range": [400, 500]}
      ]
    },
    {
      "name": "LongRail", "parent": "Rail",
      "attributes": [
        {"name": "price_cents", "range": [1600, 1600]},
        {"name": "length_mm", "range": [600, 800]}
      ]
    },
    {
      "name": "Device", "parent": "Item",
      "attributes": [
        {"name": "width_mm", "range": [10, 200]}, {"name": "draws_ma", "range": [0, 2000]}
      ]
    },
    {
      "name": "PowerSupply24V", "parent": "Device",
      "attributes": [
        {"name": "price_cents", "range": [13900, 13900]}, {"name": "heat_w", "range": [18, 18]},
        {"name": "width_mm", "range": [90, 90]}, {"name": "draws_ma", "range": [0, 0]},
        {"name": "output_ma", "range": [2500, 2500]}
      ]
    },
    {
      "name": "Controller", "parent": "Device",
      "attributes": [
        {"name": "price_cents", "range": [64900, 64900]}, {"name": "heat_w", "range": [6, 6]},
        {"name": "width_mm", "range": [100, 100]}, {"name": "draws_ma", "range": [500, 500]}
      ]
    },
    {
      "name": "IoModule", "parent": "Device",
      "attributes": [{"name": "channels", "range": [8, 16]}],
      "ports": [{"name": "bus", "kind": "use", "target": "Controller", "links": [1, 1]}]
    },
    {
      "name": "DigitalInputModule", "parent": "IoModule",
      "attributes": [
        {"name": "price_cents", "range": [9900, 9900]}, {"name": "heat_w", "range": [2, 2]},
        {"name": "width_mm", "range": [15, 15]}, {"name": "draws_ma", "range": [60, 60]},
        {"name": "channels", "range": [16, 16]}
      ]
    },
    {
      "name": "DigitalOutputModule", "parent": "IoModule",
      "attributes": [
        {"name": "price_cents", "range": [11900, 11900]}, {"name": "heat_w", "range": [3, 3]},
        {"name": "width_mm", "range": [15, 15]}, {"name": "draws_ma", "range": [1600, 1600]},
        {"name": "channels", "range": [16, 16]}
      ]
    },
    {
      "name": "AnalogueInputModule", "parent": "IoModule",
      "attributes": [
        {"name": "price_cents", "range": [21900, 21900]}, {"name": "heat_w", "range": [3, 3]},
        {"name": "width_mm", "range": [30, 30]}, {"name": "draws_ma", "range": [100, 100]},
        {"name": "channels", "range": [8, 8]}, {"name": "signal", "words": ["0-10V", "4-20mA"]}
      ]
    },
    {
      "name": "MotorDrive", "parent": "Device",
      "attributes": [
        {"name": "width_mm", "range": [150, 150]}, {"name": "draws_ma", "range": [200, 200]},
        {"name": "motor_w", "range": [500, 3000]}, {"name": "current_ma", "range": [1200, 7200]}
      ],
      "ports": [{"name": "fed_by", "kind": "use", "target": "CircuitBreaker", "links": [1, 1]}]
    },
    {
      "name": "CircuitBreaker", "parent": "Device",
      "attributes": [
        {"name": "price_cents", "range": [4900, 4900]}, {"name": "heat_w", "range": [4, 4]},
        {"name": "width_mm", "range": [45, 45]}, {"name": "draws_ma", "range": [0, 0]},
        {"name": "trips_at_ma", "range": [1000, 10000]}
      ]
    },
    {
      "name": "TerminalStrip", "parent": "Device",
      "attributes": [
        {"name": "price_cents", "range": [5900, 5900]}, {"name": "heat_w", "range": [0, 0]},
        {"name": "width_mm", "range": [160, 160]}, {"name": "draws_ma", "range": [0, 0]},
        {"name": "poles", "range": [32, 32]}
      ]
    },
    {
      "name": "Cooling", "parent": "Item",
      "attributes": [
        {"name": "heat_w", "range": [0, 0]}, {"name": "removes_w", "range": [100, 500]}
      ]
    },
    {
      "name": "FilterFan", "parent": "Cooling",
      "attributes": [
        {"name": "price_cents", "range": [8900, 8900]},
        {"name": "removes_w", "range": [180, 180]}
      ]
    },
    {
      "name": "CoolingUnit", "parent": "Cooling",
      "attributes": [
        {"name": "price_cents", "range": [89000, 89000]},
        {"name": "removes_w", "range": [500, 500]}
      ]
    }
  ],
  "bounds": [{"type": "Controller", "count": [1, 1]}, {"type": "IoModule", "count": [0, 8]}],
  "rules": [
    {
      "name": "devices_fit_rail", "type": "Rail",
      "holds": ["<=", ["sum", "devices", "width_mm"], ["attr", "length_mm"]]
    },
    {
      "name": "drives_away_from_modules", "type": "Rail",
      "holds": [
        "not",
        [
          "and", ["any", "devices", ["kind", "MotorDrive"]],
          ["any", "devices", ["kind", "IoModule"]]
        ]
      ]
    },
    {
      "name": "rails_fit_height", "type": "Cabinet",
      "holds": ["<=", ["+", ["*", 300, ["count", "rails"]], 200], ["attr", "height_mm"]]
    },
    {
      "name": "heat_is_removed", "type": "Cabinet",
      "holds": [
        "<=", ["total", "Item", "heat_w"],
        ["+", ["attr", "walls_remove_w"], ["sum", "cooling", "removes_w"]]
      ]
    },
    {
      "name": "no_fan_in_a_tight_cabinet", "type": "Cabinet",
      "holds": [
        "if", ["is", "protection", "IP65"], ["=", ["count", "cooling", "FilterFan"], 0]
      ]
    },
    {
      "name": "supplies_carry_24_volt_load", "type": "Cabinet",
      "holds": [
        ">=", ["total", "PowerSupply24V", "output_ma"], ["total", "Device", "draws_ma"]
      ]
    },
    {
      "name": "two_poles_a_channel", "type": "Cabinet",
      "holds": [
        ">=", ["total", "TerminalStrip", "poles"], ["*", 2, ["total", "IoModule", "channels"]]
      ]
    },
    {
      "name": "breaker_for_each_drive", "type": "Cabinet",
      "holds": [">=", ["number", "CircuitBreaker"], ["number", "MotorDrive"]]
    },
    {
      "name": "breaker_carries_drive", "type": "MotorDrive",
      "holds": [">=", ["sum", "fed_by", "trips_at_ma"], ["attr", "current_ma"]]
    },
    {
      "name": "breaker_protects_drive", "type": "MotorDrive",
      "holds": [
        "<=", ["*", 2, ["sum", "fed_by", "trips_at_ma"]], ["*", 3, ["attr", "current_ma"]]
      ]
    },
    {
      "name": "drive_current", "type": "MotorDrive",
      "holds": ["=", ["*", 5, ["attr", "current_ma"]], ["*", 12, ["attr", "motor_w"]]]
    },
    {
      "name": "drive_heat", "type": "MotorDrive",
      "holds": ["=", ["*", 50, ["attr", "heat_w"]], ["attr", "motor_w"]]
    },
    {
      "name": "drive_price", "type": "MotorDrive",
      "holds": ["=", ["attr", "price_cents"], ["+", 19900, ["*", 12, ["attr", "motor_w"]]]]
    }
  ]
}
"#;

/// What the customer wants.
pub(super) const ORDER: &str = r#"{
  "format": "order 1",
  "requests": [
    {"name": "four_motors", "holds": ["=", ["number", "MotorDrive"], 4]},
    {"name": "motor_power", "holds": [">=", ["total", "MotorDrive", "motor_w"], 7400]},
    {
      "name": "digital_inputs", "holds": [">=", ["total", "DigitalInputModule", "channels"], 32]
    },
    {
      "name": "digital_outputs",
      "holds": [">=", ["total", "DigitalOutputModule", "channels"], 16]
    },
    {
      "name": "analogue_inputs",
      "holds": [">=", ["total", "AnalogueInputModule", "channels"], 8]
    },
    {"name": "dust_tight", "holds": ["is", "protection", "IP65"]},
    {
      "name": "a_fifth_of_the_rails_free",
      "holds": [
        "<=", ["*", 5, ["total", "Device", "width_mm"]], ["*", 4, ["sum", "rails", "length_mm"]]
      ]
    },
    {"name": "budget", "holds": ["<=", ["total", "Item", "price_cents"], 600000]}
  ],
  "criteria": [
    {"name": "cost_cents", "minimise": ["total", "Item", "price_cents"]},
    {"name": "heat_w", "minimise": ["total", "Item", "heat_w"]},
    {
      "name": "free_rail_mm",
      "maximise": ["-", ["sum", "rails", "length_mm"], ["total", "Device", "width_mm"]]
    }
  ]
}
"#;

/// A product that meets all of it.
pub(super) const GOOD: &str = "preferred\n\
    0 FloorCabinet price_cents=112000 heat_w=0 height_mm=2000 walls_remove_w=150 \
    protection=IP65 rails:1,2,3 cooling:4\n\
    1 LongRail price_cents=1600 heat_w=0 length_mm=800 \
    devices:5,6,7,8,9,10,11,12,13,14,15\n\
    2 LongRail price_cents=1600 heat_w=0 length_mm=800 devices:16,17,18,19\n\
    3 LongRail price_cents=1600 heat_w=0 length_mm=800 devices:20,21,22,23\n\
    4 CoolingUnit price_cents=89000 heat_w=0 removes_w=500\n\
    5 CircuitBreaker price_cents=4900 heat_w=4 width_mm=45 draws_ma=0 trips_at_ma=6000\n\
    6 CircuitBreaker price_cents=4900 heat_w=4 width_mm=45 draws_ma=0 trips_at_ma=6000\n\
    7 CircuitBreaker price_cents=4900 heat_w=4 width_mm=45 draws_ma=0 trips_at_ma=4000\n\
    8 CircuitBreaker price_cents=4900 heat_w=4 width_mm=45 draws_ma=0 trips_at_ma=4000\n\
    9 PowerSupply24V price_cents=13900 heat_w=18 width_mm=90 draws_ma=0 output_ma=2500\n\
    10 PowerSupply24V price_cents=13900 heat_w=18 width_mm=90 draws_ma=0 output_ma=2500\n\
    11 Controller price_cents=64900 heat_w=6 width_mm=100 draws_ma=500\n\
    12 DigitalInputModule price_cents=9900 heat_w=2 width_mm=15 draws_ma=60 channels=16 \
    bus:11\n\
    13 DigitalInputModule price_cents=9900 heat_w=2 width_mm=15 draws_ma=60 channels=16 \
    bus:11\n\
    14 DigitalOutputModule price_cents=11900 heat_w=3 width_mm=15 draws_ma=1600 \
    channels=16 bus:11\n\
    15 AnalogueInputModule price_cents=21900 heat_w=3 width_mm=30 draws_ma=100 channels=8 \
    signal=4-20mA bus:11\n\
    16 MotorDrive price_cents=46300 heat_w=44 width_mm=150 draws_ma=200 motor_w=2200 \
    current_ma=5280 fed_by:5\n\
    17 MotorDrive price_cents=46300 heat_w=44 width_mm=150 draws_ma=200 motor_w=2200 \
    current_ma=5280 fed_by:6\n\
    18 MotorDrive price_cents=37900 heat_w=30 width_mm=150 draws_ma=200 motor_w=1500 \
    current_ma=3600 fed_by:7\n\
    19 MotorDrive price_cents=37900 heat_w=30 width_mm=150 draws_ma=200 motor_w=1500 \
    current_ma=3600 fed_by:8\n\
    20 TerminalStrip price_cents=5900 heat_w=0 width_mm=160 draws_ma=0 poles=32\n\
    21 TerminalStrip price_cents=5900 heat_w=0 width_mm=160 draws_ma=0 poles=32\n\
    22 TerminalStrip price_cents=5900 heat_w=0 width_mm=160 draws_ma=0 poles=32\n\
    23 TerminalStrip price_cents=5900 heat_w=0 width_mm=160 draws_ma=0 poles=32\n";

/// One that doesn't.
pub(super) const BAD: &str = "preferred\n\
    0 FloorCabinet price_cents=112000 heat_w=0 height_mm=2000 walls_remove_w=150 \
    protection=IP65 rails:1,2,3 cooling:4\n\
    1 LongRail price_cents=1600 heat_w=0 length_mm=600 \
    devices:5,6,7,8,9,10,11,12,13,14,15\n\
    2 LongRail price_cents=1600 heat_w=0 length_mm=800 devices:16,17,18,19\n\
    3 LongRail price_cents=1600 heat_w=0 length_mm=800 devices:20,21,22,23\n\
    4 CoolingUnit price_cents=89000 heat_w=0 removes_w=500\n\
    5 CircuitBreaker price_cents=4900 heat_w=4 width_mm=45 draws_ma=0 trips_at_ma=6000\n\
    6 CircuitBreaker price_cents=4900 heat_w=4 width_mm=45 draws_ma=0 trips_at_ma=6000\n\
    7 CircuitBreaker price_cents=4900 heat_w=4 width_mm=45 draws_ma=0 trips_at_ma=4000\n\
    8 CircuitBreaker price_cents=4900 heat_w=4 width_mm=45 draws_ma=0 trips_at_ma=4000\n\
    9 PowerSupply24V price_cents=13900 heat_w=18 width_mm=90 draws_ma=0 output_ma=2500\n\
    10 PowerSupply24V price_cents=13900 heat_w=18 width_mm=90 draws_ma=0 output_ma=2500\n\
    11 Controller price_cents=64900 heat_w=6 width_mm=100 draws_ma=500\n\
    12 DigitalInputModule price_cents=9900 heat_w=2 width_mm=15 draws_ma=60 channels=16 \
    bus:11\n\
    13 DigitalInputModule price_cents=9900 heat_w=2 width_mm=15 draws_ma=60 channels=16 \
    bus:11\n\
    14 DigitalOutputModule price_cents=11900 heat_w=3 width_mm=15 draws_ma=1600 \
    channels=16 bus:11\n\
    15 AnalogueInputModule price_cents=21900 heat_w=3 width_mm=30 draws_ma=100 channels=8 \
    signal=4-20mA bus:11\n\
    16 MotorDrive price_cents=46300 heat_w=44 width_mm=150 draws_ma=200 motor_w=2200 \
    current_ma=5280 fed_by:5\n\
    17 MotorDrive price_cents=46300 heat_w=44 width_mm=150 draws_ma=200 motor_w=2200 \
    current_ma=5280 fed_by:6\n\
    18 MotorDrive price_cents=37900 heat_w=30 width_mm=150 draws_ma=200 motor_w=1500 \
    current_ma=3600 fed_by:7\n\
    19 MotorDrive price_cents=37900 heat_w=30 width_mm=150 draws_ma=200 motor_w=1500 \
    current_ma=3600 fed_by:8\n\
    20 TerminalStrip price_cents=5900 heat_w=0 width_mm=160 draws_ma=0 poles=32\n\
    21 TerminalStrip price_cents=5900 heat_w=0 width_mm=160 draws_ma=0 poles=32\n\
    22 TerminalStrip price_cents=5900 heat_w=0 width_mm=160 draws_ma=0 poles=32\n\
    23 TerminalStrip price_cents=5900 heat_w=0 width_mm=160 draws_ma=0 poles=32\n";
