//! A network rack with ports that are each other's inverse, as in `examples/network-rack`.

/// The model.
pub(super) const MODEL: &str = r#"{
  "format": "product-model 2", "root": "Rack", "instances": 40,
  "types": [
    {"name": "Item", "attributes": [{"name": "price_cents", "range": [0, 900000]}]},
    {
      "name": "Rack", "parent": "Item",
      "attributes": [
        {"name": "space_units", "range": [24, 42]}, {"name": "depth_mm", "range": [800, 1200]}
      ],
      "ports": [
        {"name": "strips", "kind": "part", "target": "PowerStrip", "links": [2, 2]},
        {"name": "switches", "kind": "part", "target": "Switch", "links": [1, 4]},
        {"name": "nodes", "kind": "part", "target": "Node", "links": [1, 24]}
      ]
    },
    {
      "name": "Rack24U", "parent": "Rack",
      "attributes": [
        {"name": "price_cents", "range": [84000, 84000]},
        {"name": "space_units", "range": [24, 24]}, {"name": "depth_mm", "range": [800, 800]}
      ]
    },
    {
      "name": "Rack42U", "parent": "Rack",
      "attributes": [
        {"name": "price_cents", "range": [129000, 129000]},
        {"name": "space_units", "range": [42, 42]}, {"name": "depth_mm", "range": [1200, 1200]}
      ]
    },
    {
      "name": "PowerStrip", "parent": "Item",
      "attributes": [
        {"name": "price_cents", "range": [54900, 54900]},
        {"name": "rated_watts", "range": [7300, 7300]}
      ],
      "ports": [
        {
          "name": "feeds", "kind": "use", "target": "Equipment", "links": [0, 24],
          "inverse": "fed_by"
        }
      ]
    },
    {
      "name": "Equipment", "parent": "Item",
      "attributes": [{"name": "units", "range": [1, 4]}, {"name": "watts", "range": [10, 600]}],
      "ports": [
        {
          "name": "fed_by", "kind": "use", "target": "PowerStrip", "links": [1, 2],
          "inverse": "feeds"
        }
      ]
    },
    {
      "name": "Switch", "parent": "Equipment",
      "attributes": [
        {"name": "units", "range": [1, 1]}, {"name": "sockets", "range": [24, 32]},
        {"name": "socket", "words": ["RJ45", "SFP28"]}
      ],
      "ports": [
        {
          "name": "patches", "kind": "use", "target": "Node", "links": [0, 32],
          "inverse": "patched_to"
        }
      ]
    },
    {
      "name": "CopperSwitch", "parent": "Switch",
      "attributes": [
        {"name": "price_cents", "range": [89000, 89000]}, {"name": "watts", "range": [45, 45]},
        {"name": "sockets", "range": [24, 24]}, {"name": "socket", "words": ["RJ45"]}
      ],
      "ports": [{"name": "patches", "kind": "use", "target": "Node", "links": [0, 24]}]
    },
    {
      "name": "FibreSwitch", "parent": "Switch",
      "attributes": [
        {"name": "price_cents", "range": [649000, 649000]},
        {"name": "watts", "range": [220, 220]}, {"name": "sockets", "range": [32, 32]},
        {"name": "socket", "words": ["SFP28"]}
      ]
    },
    {
      "name": "Node", "parent": "Equipment",
      "attributes": [
        {"name": "plug", "words": ["RJ45", "SFP28"]}, {"name": "depth_mm", "range": [300, 900]}
      ],
      "ports": [
        {
          "name": "patched_to", "kind": "use", "target": "Switch", "links": [1, 2],
          "inverse": "patches"
        }
      ]
    },
    {
      "name": "ComputeServer", "parent": "Node",
      "attributes": [
        {"name": "price_cents", "range": [489000, 489000]}, {"name": "units", "range": [1, 1]},
        {"name": "watts", "range": [450, 450]}, {"name": "depth_mm", "range": [750, 750]},
        {"name": "cores", "range": [64, 64]}
      ]
    },
    {
      "name": "StorageServer", "parent": "Node",
      "attributes": [
        {"name": "price_cents", "range": [829000, 829000]}, {"name": "units", "range": [4, 4]},
        {"name": "watts", "range": [380, 380]}, {"name": "plug", "words": ["SFP28"]},
        {"name": "depth_mm", "range": [820, 820]}, {"name": "terabytes", "range": [180, 180]}
      ],
      "ports": [
        {"name": "patched_to", "kind": "use", "target": "FibreSwitch", "links": [2, 2]}
      ]
    },
    {
      "name": "Firewall", "parent": "Node",
      "attributes": [
        {"name": "price_cents", "range": [219000, 219000]}, {"name": "units", "range": [1, 1]},
        {"name": "watts", "range": [60, 60]}, {"name": "depth_mm", "range": [450, 450]}
      ]
    },
    {
      "name": "ManagementConsole", "parent": "Node",
      "attributes": [
        {"name": "price_cents", "range": [64900, 64900]}, {"name": "units", "range": [1, 1]},
        {"name": "watts", "range": [30, 30]}, {"name": "plug", "words": ["RJ45"]},
        {"name": "depth_mm", "range": [500, 500]}
      ],
      "ports": [
        {"name": "patched_to", "kind": "use", "target": "CopperSwitch", "links": [1, 1]}
      ]
    }
  ],
  "bounds": [
    {"type": "Firewall", "count": [0, 2]}, {"type": "ManagementConsole", "count": [0, 1]}
  ],
  "rules": [
    {
      "name": "equipment_fits_rack", "type": "Rack",
      "holds": ["<=", ["total", "Equipment", "units"], ["attr", "space_units"]]
    },
    {
      "name": "short_rack_takes_short_nodes", "type": "Rack",
      "holds": [
        "if", ["<", ["attr", "depth_mm"], 1000],
        ["all", "nodes", ["<=", ["attr", "depth_mm"], 600]]
      ]
    },
    {
      "name": "console_from_four_servers_on", "type": "Rack",
      "holds": [
        "if", [">=", ["number", "ComputeServer"], 4], ["=", ["number", "ManagementConsole"], 1]
      ]
    },
    {
      "name": "no_single_fibre_switch", "type": "Rack",
      "holds": ["!=", ["count", "switches", "FibreSwitch"], 1]
    },
    {
      "name": "strip_carries_what_it_feeds", "type": "PowerStrip",
      "holds": ["<=", ["sum", "feeds", "watts"], ["attr", "rated_watts"]]
    },
    {
      "name": "two_spare_sockets", "type": "Switch",
      "holds": ["<=", ["+", ["count", "patches"], 2], ["attr", "sockets"]]
    },
    {
      "name": "RJ45_into_RJ45", "type": "Node",
      "holds": ["if", ["is", "plug", "RJ45"], ["all", "patched_to", ["is", "socket", "RJ45"]]]
    },
    {
      "name": "SFP28_into_SFP28", "type": "Node",
      "holds": [
        "if", ["is", "plug", "SFP28"], ["all", "patched_to", ["is", "socket", "SFP28"]]
      ]
    }
  ]
}
"#;

/// What the customer wants.
pub(super) const ORDER: &str = r#"{
  "format": "order 1",
  "requests": [
    {"name": "cores", "holds": [">=", ["total", "ComputeServer", "cores"], 512]},
    {"name": "storage", "holds": [">=", ["total", "StorageServer", "terabytes"], 300]},
    {"name": "two_firewalls", "holds": ["=", ["number", "Firewall"], 2]},
    {
      "name": "servers_on_two_switches",
      "holds": [
        "all", "nodes", ["if", ["kind", "ComputeServer"], ["=", ["count", "patched_to"], 2]]
      ]
    },
    {
      "name": "nodes_on_two_strips",
      "holds": [
        "all", "nodes", ["or", ["kind", "ManagementConsole"], ["=", ["count", "fed_by"], 2]]
      ]
    },
    {"name": "six_kilowatts", "holds": ["<=", ["total", "Equipment", "watts"], 6000]},
    {"name": "budget", "holds": ["<=", ["total", "Item", "price_cents"], 8000000]}
  ],
  "criteria": [
    {"name": "cost_cents", "minimise": ["total", "Item", "price_cents"]},
    {"name": "load_watts", "minimise": ["total", "Equipment", "watts"]},
    {
      "name": "free_units",
      "maximise": ["-", ["attr", "space_units"], ["total", "Equipment", "units"]]
    }
  ]
}
"#;

/// A product that meets all of it.
pub(super) const GOOD: &str = "preferred\n\
    0 Rack42U price_cents=129000 space_units=42 depth_mm=1200 strips:1,2 switches:3,4,5 \
    nodes:6,7,8,9,10,11,12,13,14,15,16,17,18\n\
    1 PowerStrip price_cents=54900 rated_watts=7300 \
    feeds:3,4,5,6,7,8,9,10,11,12,13,14,15,16,17,18\n\
    2 PowerStrip price_cents=54900 rated_watts=7300 \
    feeds:3,4,6,7,8,9,10,11,12,13,14,15,16,17\n\
    3 FibreSwitch price_cents=649000 units=1 watts=220 sockets=32 socket=SFP28 fed_by:1,2 \
    patches:6,7,8,9,10,11,12,13,14,15,16,17\n\
    4 FibreSwitch price_cents=649000 units=1 watts=220 sockets=32 socket=SFP28 fed_by:1,2 \
    patches:6,7,8,9,10,11,12,13,14,15,16,17\n\
    5 CopperSwitch price_cents=89000 units=1 watts=45 sockets=24 socket=RJ45 fed_by:1 \
    patches:18\n\
    6 ComputeServer price_cents=489000 units=1 watts=450 plug=SFP28 depth_mm=750 cores=64 \
    fed_by:1,2 patched_to:3,4\n\
    7 ComputeServer price_cents=489000 units=1 watts=450 plug=SFP28 depth_mm=750 cores=64 \
    fed_by:1,2 patched_to:3,4\n\
    8 ComputeServer price_cents=489000 units=1 watts=450 plug=SFP28 depth_mm=750 cores=64 \
    fed_by:1,2 patched_to:3,4\n\
    9 ComputeServer price_cents=489000 units=1 watts=450 plug=SFP28 depth_mm=750 cores=64 \
    fed_by:1,2 patched_to:3,4\n\
    10 ComputeServer price_cents=489000 units=1 watts=450 plug=SFP28 depth_mm=750 \
    cores=64 fed_by:1,2 patched_to:3,4\n\
    11 ComputeServer price_cents=489000 units=1 watts=450 plug=SFP28 depth_mm=750 \
    cores=64 fed_by:1,2 patched_to:3,4\n\
    12 ComputeServer price_cents=489000 units=1 watts=450 plug=SFP28 depth_mm=750 \
    cores=64 fed_by:1,2 patched_to:3,4\n\
    13 ComputeServer price_cents=489000 units=1 watts=450 plug=SFP28 depth_mm=750 \
    cores=64 fed_by:1,2 patched_to:3,4\n\
    14 StorageServer price_cents=829000 units=4 watts=380 plug=SFP28 depth_mm=820 \
    terabytes=180 fed_by:1,2 patched_to:3,4\n\
    15 StorageServer price_cents=829000 units=4 watts=380 plug=SFP28 depth_mm=820 \
    terabytes=180 fed_by:1,2 patched_to:3,4\n\
    16 Firewall price_cents=219000 units=1 watts=60 plug=SFP28 depth_mm=450 fed_by:1,2 \
    patched_to:3,4\n\
    17 Firewall price_cents=219000 units=1 watts=60 plug=SFP28 depth_mm=450 fed_by:1,2 \
    patched_to:3,4\n\
    18 ManagementConsole price_cents=64900 units=1 watts=30 plug=RJ45 depth_mm=500 \
    fed_by:1 patched_to:5\n";

/// One that doesn't.
pub(super) const BAD: &str = "preferred\n\
    0 Rack42U price_cents=129000 space_units=42 depth_mm=1200 strips:1,2 switches:3,4,5 \
    nodes:6,7,8,9,10,11,12,13,14,15,16,17,18\n\
    1 PowerStrip price_cents=54900 rated_watts=7300 \
    feeds:3,4,5,6,7,8,9,10,11,12,13,14,15,16,17,18\n\
    2 PowerStrip price_cents=54900 rated_watts=7300 \
    feeds:3,4,6,7,8,9,10,11,12,13,14,15,16,17\n\
    3 FibreSwitch price_cents=649000 units=1 watts=220 sockets=32 socket=SFP28 fed_by:1,2 \
    patches:6,7,8,9,10,11,12,13,14,15,16,17\n\
    4 FibreSwitch price_cents=649000 units=1 watts=220 sockets=32 socket=SFP28 fed_by:1,2 \
    patches:6,7,8,10,11,12,13,14,15,16,17\n\
    5 CopperSwitch price_cents=89000 units=1 watts=45 sockets=24 socket=RJ45 fed_by:1 \
    patches:18\n\
    6 ComputeServer price_cents=489000 units=1 watts=450 plug=SFP28 depth_mm=750 cores=64 \
    fed_by:1,2 patched_to:3,4\n\
    7 ComputeServer price_cents=489000 units=1 watts=450 plug=SFP28 depth_mm=750 cores=64 \
    fed_by:1,2 patched_to:3,4\n\
    8 ComputeServer price_cents=489000 units=1 watts=450 plug=SFP28 depth_mm=750 cores=64 \
    fed_by:1,2 patched_to:3,4\n\
    9 ComputeServer price_cents=489000 units=1 watts=450 plug=SFP28 depth_mm=750 cores=64 \
    fed_by:1,2 patched_to:3,4\n\
    10 ComputeServer price_cents=489000 units=1 watts=450 plug=SFP28 depth_mm=750 \
    cores=64 fed_by:1,2 patched_to:3,4\n\
    11 ComputeServer price_cents=489000 units=1 watts=450 plug=SFP28 depth_mm=750 \
    cores=64 fed_by:1,2 patched_to:3,4\n\
    12 ComputeServer price_cents=489000 units=1 watts=450 plug=SFP28 depth_mm=750 \
    cores=64 fed_by:1,2 patched_to:3,4\n\
    13 ComputeServer price_cents=489000 units=1 watts=450 plug=SFP28 depth_mm=750 \
    cores=64 fed_by:1,2 patched_to:3,4\n\
    14 StorageServer price_cents=829000 units=4 watts=380 plug=SFP28 depth_mm=820 \
    terabytes=180 fed_by:1,2 patched_to:3,4\n\
    15 StorageServer price_cents=829000 units=4 watts=380 plug=SFP28 depth_mm=820 \
    terabytes=180 fed_by:1,2 patched_to:3,4\n\
    16 Firewall price_cents=219000 units=1 watts=60 plug=SFP28 depth_mm=450 fed_by:1,2 \
    patched_to:3,4\n\
    17 Firewall price_cents=219000 units=1 watts=60 plug=SFP28 depth_mm=450 fed_by:1,2 \
    patched_to:3,4\n\
    18 ManagementConsole price_cents=64900 units=1 watts=30 plug=RJ45 depth_mm=500 \
    fed_by:1 patched_to:5\n";
