//! A server chassis, as it stands in `examples/server-chassis`.

/// The model.
pub(super) const MODEL: &str = r#"{
  "format": "product-model 1", "root": "Chassis", "instances": 48,
  "types": [
    {
      "name": "Component",
      "attributes": [
        {"name": "price_cents", "range": [0, 500000]}, {"name": "watts", "range": [0, 400]}
      ]
    },
    {
      "name": "Chassis", "parent": "Component",
      "attributes": [{"name": "height_units", "range": [1, 2]}],
      "ports": [
        {"name": "board", "kind": "part", "target": "Mainboard", "links": [1, 1]},
        {"name": "supplies", "kind": "part", "target": "PowerSupply", "links": [2, 2]},
        {"name": "fans", "kind": "part", "target": "Fan", "links": [4, 6]},
        {"name": "drives", "kind": "part", "target": "Drive", "links": [0, 12]}
      ]
    },
    {
      "name": "Chassis1U", "parent": "Chassis",
      "attributes": [
        {"name": "price_cents", "range": [24900, 24900]}, {"name": "watts", "range": [10, 10]},
        {"name": "height_units", "range": [1, 1]}
      ],
      "ports": [{"name": "drives", "kind": "part", "target": "Drive", "links": [0, 4]}]
    },
    {
      "name": "Chassis2U", "parent": "Chassis",
      "attributes": [
        {"name": "price_cents", "range": [34900, 34900]}, {"name": "watts", "range": [15, 15]},
        {"name": "height_units", "range": [2, 2]}
      ]
    },
    {
      "name": "Mainboard", "parent": "Component",
      "attributes": [
        {"name": "price_cents", "range": [68900, 68900]}, {"name": "watts", "range": [60, 60]}
      ],
      "ports": [
        {"name": "processors", "kind": "part", "target": "Processor", "links": [1, 2]},
        {"name": "memory", "kind": "part", "target": "MemoryModule", "links": [2, 16]},
        {"name": "network", "kind": "part", "target": "NetworkCard", "links": [0, 2]},
        {"name": "controllers", "kind": "part", "target": "StorageController", "links": [0, 2]}
      ]
    },
    {
      "name": "Processor", "parent": "Component",
      "attributes": [{"name": "cores", "range": [16, 32]}]
    },
    {
      "name": "Processor16Core", "parent": "Processor",
      "attributes": [
        {"name": "price_cents", "range": [89900, 89900]},
        {"name": "watts", "range": [150, 150]}, {"name": "cores", "range": [16, 16]}
      ]
    },
    {
      "name": "Processor32Core", "parent": "Processor",
      "attributes": [
        {"name": "price_cents", "range": [189900, 189900]},
        {"name": "watts", "range": [225, 225]}, {"name": "cores", "range": [32, 32]}
      ]
    },
    {
      "name": "MemoryModule", "parent": "Component",
      "attributes": [
        {"name": "watts", "range": [8, 8]}, {"name": "gigabytes", "range": [16, 64]}
      ]
    },
    {
      "name": "Drive", "parent": "Component",
      "attributes": [{"name": "gigabytes", "range": [960, 3840]}],
      "ports": [
        {"name": "controller", "kind": "use", "target": "StorageController", "links": [0, 1]}
      ]
    },
    {
      "name": "SataDrive", "parent": "Drive",
      "attributes": [
        {"name": "price_cents", "range": [14900, 14900]}, {"name": "watts", "range": [6, 6]},
        {"name": "gigabytes", "range": [960, 960]}
      ]
    },
    {
      "name": "SasDrive", "parent": "Drive",
      "attributes": [
        {"name": "price_cents", "range": [32900, 32900]}, {"name": "watts", "range": [12, 12]},
        {"name": "gigabytes", "range": [1920, 1920]}
      ],
      "ports": [
        {"name": "controller", "kind": "use", "target": "StorageController", "links": [1, 1]}
      ]
    },
    {
      "name": "Card", "parent": "Component",
      "attributes": [{"name": "slot", "words": ["x8", "x16"]}]
    },
    {
      "name": "NetworkCard", "parent": "Card",
      "attributes": [
        {"name": "price_cents", "range": [12900, 25900]}, {"name": "watts", "range": [25, 25]},
        {"name": "speed", "words": ["10GbE", "25GbE"]}
      ]
    },
    {
      "name": "StorageController", "parent": "Card",
      "attributes": [
        {"name": "price_cents", "range": [15900, 28900]}, {"name": "watts", "range": [20, 20]},
        {"name": "slot", "words": ["x8"]}, {"name": "bus", "words": ["sata", "sas"]}
      ]
    },
    {
      "name": "PowerSupply", "parent": "Component",
      "attributes": [{"name": "output_watts", "range": [800, 1200]}]
    },
    {
      "name": "PowerSupply800W", "parent": "PowerSupply",
      "attributes": [
        {"name": "price_cents", "range": [17900, 17900]}, {"name": "watts", "range": [0, 0]},
        {"name": "output_watts", "range": [800, 800]}
      ]
    },
    {
      "name": "PowerSupply1200W", "parent": "PowerSupply",
      "attributes": [
        {"name": "price_cents", "range": [25900, 25900]}, {"name": "watts", "range": [0, 0]},
        {"name": "output_watts", "range": [1200, 1200]}
      ]
    },
    {
      "name": "Fan", "parent": "Component",
      "attributes": [
        {"name": "price_cents", "range": [1900, 1900]}, {"name": "watts", "range": [18, 18]}
      ]
    }
  ],
  "bounds": [{"type": "Card", "count": [0, 3]}],
  "rules": [
    {
      "name": "equal_supplies", "type": "Chassis",
      "holds": [
        "or", ["all", "supplies", ["kind", "PowerSupply800W"]],
        ["all", "supplies", ["kind", "PowerSupply1200W"]]
      ]
    },
    {
      "name": "one_supply_carries_all", "type": "Chassis",
      "holds": [
        ">=", ["sum", "supplies", "output_watts"], ["*", 2, ["total", "Component", "watts"]]
      ]
    },
    {
      "name": "six_fans_above_600_watts", "type": "Chassis",
      "holds": ["if", [">", ["total", "Component", "watts"], 600], ["=", ["count", "fans"], 6]]
    },
    {
      "name": "eight_drives_a_controller", "type": "Chassis",
      "holds": ["<=", ["number", "SasDrive"], ["*", 8, ["number", "StorageController"]]]
    },
    {
      "name": "equal_processors", "type": "Mainboard",
      "holds": [
        "or", ["all", "processors", ["kind", "Processor16Core"]],
        ["all", "processors", ["kind", "Processor32Core"]]
      ]
    },
    {
      "name": "memory_for_each_processor", "type": "Mainboard",
      "holds": [
        "and", [">=", ["count", "memory"], ["*", 2, ["count", "processors"]]],
        ["<=", ["count", "memory"], ["*", 8, ["count", "processors"]]]
      ]
    },
    {
      "name": "module_sizes", "type": "MemoryModule",
      "holds": [
        "or", ["=", ["attr", "gigabytes"], 16], ["=", ["attr", "gigabytes"], 32],
        ["=", ["attr", "gigabytes"], 64]
      ]
    },
    {
      "name": "module_price", "type": "MemoryModule",
      "holds": ["=", ["attr", "price_cents"], ["*", 450, ["attr", "gigabytes"]]]
    },
    {
      "name": "sas_needs_sas", "type": "SasDrive",
      "holds": ["all", "controller", ["is", "bus", "sas"]]
    },
    {
      "name": "price_of_sas", "type": "StorageController",
      "holds": ["if", ["is", "bus", "sas"], ["=", ["attr", "price_cents"], 28900]]
    },
    {
      "name": "price_of_sata", "type": "StorageController",
      "holds": ["if", ["is", "bus", "sata"], ["=", ["attr", "price_cents"], 15900]]
    },
    {
      "name": "fast_network_card", "type": "NetworkCard",
      "holds": [
        "if", ["is", "speed", "25GbE"],
        ["and", ["is", "slot", "x16"], ["=", ["attr", "price_cents"], 25900]]
      ]
    },
    {
      "name": "plain_network_card", "type": "NetworkCard",
      "holds": [
        "if", ["is", "speed", "10GbE"],
        ["and", ["is", "slot", "x8"], ["=", ["attr", "price_cents"], 12900]]
      ]
    }
  ]
}
"#;

/// What the customer wants.
pub(super) const ORDER: &str = r#"{
  "format": "order 1",
  "requests": [
    {"name": "cores", "holds": [">=", ["total", "Processor", "cores"], 64]},
    {"name": "memory", "holds": [">=", ["total", "MemoryModule", "gigabytes"], 256]},
    {"name": "storage", "holds": [">=", ["sum", "drives", "gigabytes"], 15000]},
    {"name": "sas_drives_only", "holds": ["all", "drives", ["kind", "SasDrive"]]},
    {
      "name": "fast_network",
      "holds": ["any", "board", ["any", "network", ["is", "speed", "25GbE"]]]
    },
    {"name": "free_drive_bays", "holds": ["<=", ["count", "drives"], 10]},
    {"name": "budget", "holds": ["<=", ["total", "Component", "price_cents"], 1000000]}
  ],
  "criteria": [
    {"name": "cost_cents", "minimise": ["total", "Component", "price_cents"]},
    {"name": "load_watts", "minimise": ["total", "Component", "watts"]},
    {"name": "storage_gigabytes", "maximise": ["sum", "drives", "gigabytes"]}
  ]
}
"#;

/// A product that meets all of it.
pub(super) const GOOD: &str = "preferred\n\
    0 Chassis2U price_cents=34900 watts=15 height_units=2 board:1 supplies:2,3 \
    fans:4,5,6,7,8,9 drives:10,11,12,13,14,15,16,17\n\
    1 Mainboard price_cents=68900 watts=60 processors:18,19 \
    memory:20,21,22,23,24,25,26,27 network:28 controllers:29\n\
    2 PowerSupply1200W price_cents=25900 watts=0 output_watts=1200\n\
    3 PowerSupply1200W price_cents=25900 watts=0 output_watts=1200\n\
    4 Fan price_cents=1900 watts=18\n\
    5 Fan price_cents=1900 watts=18\n\
    6 Fan price_cents=1900 watts=18\n\
    7 Fan price_cents=1900 watts=18\n\
    8 Fan price_cents=1900 watts=18\n\
    9 Fan price_cents=1900 watts=18\n\
    10 SasDrive price_cents=32900 watts=12 gigabytes=1920 controller:29\n\
    11 SasDrive price_cents=32900 watts=12 gigabytes=1920 controller:29\n\
    12 SasDrive price_cents=32900 watts=12 gigabytes=1920 controller:29\n\
    13 SasDrive price_cents=32900 watts=12 gigabytes=1920 controller:29\n\
    14 SasDrive price_cents=32900 watts=12 gigabytes=1920 controller:29\n\
    15 SasDrive price_cents=32900 watts=12 gigabytes=1920 controller:29\n\
    16 SasDrive price_cents=32900 watts=12 gigabytes=1920 controller:29\n\
    17 SasDrive price_cents=32900 watts=12 gigabytes=1920 controller:29\n\
    18 Processor32Core price_cents=189900 watts=225 cores=32\n\
    19 Processor32Core price_cents=189900 watts=225 cores=32\n\
    20 MemoryModule price_cents=14400 watts=8 gigabytes=32\n\
    21 MemoryModule price_cents=14400 watts=8 gigabytes=32\n\
    22 MemoryModule price_cents=14400 watts=8 gigabytes=32\n\
    23 MemoryModule price_cents=14400 watts=8 gigabytes=32\n\
    24 MemoryModule price_cents=14400 watts=8 gigabytes=32\n\
    25 MemoryModule price_cents=14400 watts=8 gigabytes=32\n\
    26 MemoryModule price_cents=14400 watts=8 gigabytes=32\n\
    27 MemoryModule price_cents=14400 watts=8 gigabytes=32\n\
    28 NetworkCard price_cents=25900 watts=25 slot=x16 speed=25GbE\n\
    29 StorageController price_cents=28900 watts=20 slot=x8 bus=sas\n";

/// One that doesn't.
pub(super) const BAD: &str = "preferred\n\
    0 Chassis2U price_cents=34900 watts=15 height_units=2 board:1 supplies:2,3 \
    fans:4,5,6,7,8,9 drives:10,11,12,13,14,15,16,17\n\
    1 Mainboard price_cents=68900 watts=60 processors:18,19 \
    memory:20,21,22,23,24,25,26,27 network:28 controllers:29\n\
    2 PowerSupply800W price_cents=17900 watts=0 output_watts=800\n\
    3 PowerSupply800W price_cents=17900 watts=0 output_watts=800\n\
    4 Fan price_cents=1900 watts=18\n\
    5 Fan price_cents=1900 watts=18\n\
    6 Fan price_cents=1900 watts=18\n\
    7 Fan price_cents=1900 watts=18\n\
    8 Fan price_cents=1900 watts=18\n\
    9 Fan price_cents=1900 watts=18\n\
    10 SasDrive price_cents=32900 watts=12 gigabytes=1920 controller:29\n\
    11 SasDrive price_cents=32900 watts=12 gigabytes=1920 controller:29\n\
    12 SasDrive price_cents=32900 watts=12 gigabytes=1920 controller:29\n\
    13 SasDrive price_cents=32900 watts=12 gigabytes=1920 controller:29\n\
    14 SasDrive price_cents=32900 watts=12 gigabytes=1920 controller:29\n\
    15 SasDrive price_cents=32900 watts=12 gigabytes=1920 controller:29\n\
    16 SasDrive price_cents=32900 watts=12 gigabytes=1920 controller:29\n\
    17 SasDrive price_cents=32900 watts=12 gigabytes=1920 controller:29\n\
    18 Processor32Core price_cents=189900 watts=225 cores=32\n\
    19 Processor32Core price_cents=189900 watts=225 cores=32\n\
    20 MemoryModule price_cents=14400 watts=8 gigabytes=32\n\
    21 MemoryModule price_cents=14400 watts=8 gigabytes=32\n\
    22 MemoryModule price_cents=14400 watts=8 gigabytes=32\n\
    23 MemoryModule price_cents=14400 watts=8 gigabytes=32\n\
    24 MemoryModule price_cents=14400 watts=8 gigabytes=32\n\
    25 MemoryModule price_cents=14400 watts=8 gigabytes=32\n\
    26 MemoryModule price_cents=14400 watts=8 gigabytes=32\n\
    27 MemoryModule price_cents=14400 watts=8 gigabytes=32\n\
    28 NetworkCard price_cents=25900 watts=25 slot=x16 speed=25GbE\n\
    29 StorageController price_cents=28900 watts=20 slot=x8 bus=sas\n";
