//! A lift, as it stands in `examples/lift`.

/// The model.
pub(super) const MODEL: &str = r#"{
  "format": "product-model 1", "root": "Lift", "instances": 64,
  "types": [
    {"name": "Component", "attributes": [{"name": "price_eur", "range": [0, 20000]}]},
    {
      "name": "Lift", "parent": "Component",
      "attributes": [
        {"name": "price_eur", "range": [4000, 4000]},
        {"name": "rated_load_kg", "range": [320, 1600]},
        {"name": "speed_mm_per_s", "range": [630, 1600]}
      ],
      "ports": [
        {"name": "machine", "kind": "part", "target": "Machine", "links": [1, 1]},
        {"name": "car", "kind": "part", "target": "Car", "links": [1, 1]},
        {"name": "counterweight", "kind": "part", "target": "Counterweight", "links": [1, 1]},
        {"name": "shaft", "kind": "part", "target": "Shaft", "links": [1, 1]},
        {"name": "controller", "kind": "part", "target": "Controller", "links": [1, 1]}
      ]
    },
    {
      "name": "Shaft",
      "attributes": [
        {"name": "floors", "range": [2, 16]}, {"name": "travel_mm", "range": [2500, 50000]}
      ],
      "ports": [
        {"name": "landing_doors", "kind": "part", "target": "LandingDoor", "links": [2, 16]},
        {"name": "buffers", "kind": "part", "target": "Buffer", "links": [2, 4]},
        {"name": "rails", "kind": "part", "target": "RailSection", "links": [4, 40]}
      ]
    },
    {
      "name": "Machine", "parent": "Component",
      "attributes": [
        {"name": "power_w", "range": [4000, 15000]}, {"name": "lifts_kg", "range": [1200, 5000]}
      ],
      "ports": [
        {"name": "brakes", "kind": "part", "target": "Brake", "links": [2, 2]},
        {"name": "ropes", "kind": "part", "target": "Rope", "links": [4, 8]}
      ]
    },
    {
      "name": "GearedMachine", "parent": "Machine",
      "attributes": [
        {"name": "price_eur", "range": [5200, 5200]},
        {"name": "power_w", "range": [9500, 9500]}, {"name": "lifts_kg", "range": [2400, 2400]}
      ]
    },
    {
      "name": "GearlessMachine", "parent": "Machine",
      "attributes": [
        {"name": "price_eur", "range": [7900, 7900]},
        {"name": "power_w", "range": [6700, 6700]}, {"name": "lifts_kg", "range": [2100, 2100]}
      ]
    },
    {
      "name": "Brake", "parent": "Component",
      "attributes": [
        {"name": "price_eur", "range": [670, 1720]}, {"name": "holds_kg", "range": [1500, 5000]}
      ]
    },
    {
      "name": "Rope", "parent": "Component",
      "attributes": [
        {"name": "price_eur", "range": [210, 310]}, {"name": "diameter_mm", "range": [8, 10]},
        {"name": "breaks_at_kg", "range": [3400, 5200]}
      ]
    },
    {
      "name": "Car", "parent": "Component",
      "attributes": [
        {"name": "price_eur", "range": [7100, 10700]},
        {"name": "mass_kg", "range": [650, 1500]}, {"name": "persons", "range": [4, 21]},
        {"name": "width_mm", "range": [900, 2000]}, {"name": "depth_mm", "range": [1000, 2400]}
      ],
      "ports": [
        {"name": "door", "kind": "part", "target": "CarDoor", "links": [1, 1]},
        {"name": "safety_gear", "kind": "part", "target": "SafetyGear", "links": [1, 1]}
      ]
    },
    {
      "name": "Door", "parent": "Component",
      "attributes": [
        {"name": "width_mm", "range": [700, 1400]},
        {"name": "opening", "words": ["side", "centre"]}
      ]
    },
    {
      "name": "CarDoor", "parent": "Door",
      "attributes": [{"name": "price_eur", "range": [2300, 2300]}]
    },
    {
      "name": "LandingDoor", "parent": "Door",
      "attributes": [
        {"name": "price_eur", "range": [1150, 1490]},
        {"name": "fire_class", "words": ["none", "E30", "EI60"]}
      ],
      "ports": [{"name": "moved_by", "kind": "use", "target": "CarDoor", "links": [1, 1]}]
    },
    {
      "name": "SafetyGear", "parent": "Component",
      "attributes": [
        {"name": "price_eur", "range": [880, 880]}, {"name": "stops_kg", "range": [3000, 3000]}
      ]
    },
    {
      "name": "Counterweight", "parent": "Component",
      "attributes": [
        {"name": "price_eur", "range": [1350, 1350]}, {"name": "mass_kg", "range": [700, 2300]}
      ]
    },
    {"name": "Buffer", "parent": "Component"},
    {
      "name": "SpringBuffer", "parent": "Buffer",
      "attributes": [{"name": "price_eur", "range": [120, 120]}]
    },
    {
      "name": "OilBuffer", "parent": "Buffer",
      "attributes": [{"name": "price_eur", "range": [690, 690]}]
    },
    {
      "name": "RailSection", "parent": "Component",
      "attributes": [
        {"name": "price_eur", "range": [160, 160]}, {"name": "length_mm", "range": [5000, 5000]}
      ]
    },
    {
      "name": "Controller", "parent": "Component",
      "attributes": [
        {"name": "price_eur", "range": [3900, 3900]},
        {"name": "drives_w", "range": [11000, 11000]}
      ],
      "ports": [{"name": "drives", "kind": "use", "target": "Machine", "links": [1, 1]}]
    }
  ],
  "bounds": [{"type": "Door", "count": [3, 17]}],
  "rules": [
    {
      "name": "door_at_each_floor", "type": "Shaft",
      "holds": ["=", ["count", "landing_doors"], ["attr", "floors"]]
    },
    {
      "name": "floors_fit_travel", "type": "Shaft",
      "holds": [">=", ["attr", "travel_mm"], ["*", 2500, ["-", ["attr", "floors"], 1]]]
    },
    {
      "name": "four_rails_all_the_way", "type": "Shaft",
      "holds": [
        ">=", ["sum", "rails", "length_mm"], ["*", 4, ["+", ["attr", "travel_mm"], 3000]]
      ]
    },
    {
      "name": "load_for_persons", "type": "Lift",
      "holds": [">=", ["attr", "rated_load_kg"], ["*", 75, ["sum", "car", "persons"]]]
    },
    {
      "name": "machine_lifts_full_car", "type": "Lift",
      "holds": [
        ">=", ["sum", "machine", "lifts_kg"],
        ["+", ["attr", "rated_load_kg"], ["sum", "car", "mass_kg"]]
      ]
    },
    {
      "name": "counterweight_is_half_loaded_car", "type": "Lift",
      "holds": [
        "=", ["*", 2, ["sum", "counterweight", "mass_kg"]],
        ["+", ["*", 2, ["sum", "car", "mass_kg"]], ["attr", "rated_load_kg"]]
      ]
    },
    {
      "name": "gearless_above_1000_mm_per_s", "type": "Lift",
      "holds": [
        "if", [">", ["attr", "speed_mm_per_s"], 1000],
        ["all", "machine", ["kind", "GearlessMachine"]]
      ]
    },
    {
      "name": "oil_buffers_above_1000_mm_per_s", "type": "Lift",
      "holds": [
        "if", [">", ["attr", "speed_mm_per_s"], 1000],
        ["all", "shaft", ["all", "buffers", ["kind", "OilBuffer"]]]
      ]
    },
    {
      "name": "each_brake_holds_alone", "type": "Machine",
      "holds": [">=", ["sum", "brakes", "holds_kg"], ["*", 2, ["attr", "lifts_kg"]]]
    },
    {
      "name": "brake_price", "type": "Brake",
      "holds": [
        "=", ["*", 10, ["attr", "price_eur"]], ["+", 2200, ["*", 3, ["attr", "holds_kg"]]]
      ]
    },
    {
      "name": "ropes_are_twelve_times_safe", "type": "Machine",
      "holds": [">=", ["sum", "ropes", "breaks_at_kg"], ["*", 12, ["attr", "lifts_kg"]]]
    },
    {
      "name": "rope_sizes", "type": "Rope",
      "holds": [
        "or",
        [
          "and", ["=", ["attr", "diameter_mm"], 8], ["=", ["attr", "price_eur"], 210],
          ["=", ["attr", "breaks_at_kg"], 3400]
        ],
        [
          "and", ["=", ["attr", "diameter_mm"], 10], ["=", ["attr", "price_eur"], 310],
          ["=", ["attr", "breaks_at_kg"], 5200]
        ]
      ]
    },
    {
      "name": "car_price", "type": "Car",
      "holds": [
        "=", ["attr", "price_eur"],
        ["+", 4300, ["*", 2, ["attr", "width_mm"]], ["attr", "depth_mm"]]
      ]
    },
    {
      "name": "car_mass", "type": "Car",
      "holds": ["=", ["attr", "mass_kg"], ["+", 450, ["*", 50, ["attr", "persons"]]]]
    },
    {
      "name": "door_fits_car", "type": "Car",
      "holds": ["<=", ["+", ["sum", "door", "width_mm"], 200], ["attr", "width_mm"]]
    },
    {
      "name": "safety_gear_stops_car", "type": "Car",
      "holds": [
        ">=", ["sum", "safety_gear", "stops_kg"],
        ["+", ["attr", "mass_kg"], ["*", 75, ["attr", "persons"]]]
      ]
    },
    {
      "name": "landing_door_as_wide_as_car_door", "type": "LandingDoor",
      "holds": ["=", ["attr", "width_mm"], ["sum", "moved_by", "width_mm"]]
    },
    {
      "name": "landing_door_opens_as_car_door", "type": "LandingDoor",
      "holds": [
        "or",
        ["and", ["is", "opening", "side"], ["all", "moved_by", ["is", "opening", "side"]]],
        ["and", ["is", "opening", "centre"], ["all", "moved_by", ["is", "opening", "centre"]]]
      ]
    },
    {
      "name": "landing_door_price", "type": "LandingDoor",
      "holds": [
        "or", ["and", ["is", "fire_class", "none"], ["=", ["attr", "price_eur"], 1150]],
        ["and", ["is", "fire_class", "E30"], ["=", ["attr", "price_eur"], 1290]],
        ["and", ["is", "fire_class", "EI60"], ["=", ["attr", "price_eur"], 1490]]
      ]
    },
    {
      "name": "controller_feeds_machine", "type": "Controller",
      "holds": [">=", ["attr", "drives_w"], ["sum", "drives", "power_w"]]
    }
  ]
}
"#;

/// What the customer wants.
pub(super) const ORDER: &str = r#"{
  "format": "order 1",
  "requests": [
    {"name": "five_floors", "holds": ["all", "shaft", ["=", ["attr", "floors"], 5]]},
    {"name": "travel", "holds": ["all", "shaft", ["=", ["attr", "travel_mm"], 12000]]},
    {"name": "ten_persons", "holds": ["all", "car", [">=", ["attr", "persons"], 10]]},
    {
      "name": "wheelchair",
      "holds": [
        "all", "car",
        [
          "and", [">=", ["attr", "width_mm"], 1100], [">=", ["attr", "depth_mm"], 1400],
          ["all", "door", [">=", ["attr", "width_mm"], 900]]
        ]
      ]
    },
    {
      "name": "fire_doors",
      "holds": ["all", "shaft", ["all", "landing_doors", ["is", "fire_class", "EI60"]]]
    },
    {"name": "fast", "holds": [">=", ["attr", "speed_mm_per_s"], 1600]},
    {"name": "eight_kilowatts", "holds": ["<=", ["sum", "machine", "power_w"], 8000]}
  ],
  "criteria": [
    {"name": "cost_eur", "minimise": ["total", "Component", "price_eur"]},
    {"name": "power_w", "minimise": ["sum", "machine", "power_w"]},
    {"name": "persons", "maximise": ["sum", "car", "persons"]}
  ]
}
"#;

/// A product that meets all of it.
pub(super) const GOOD: &str = "preferred\n\
    0 Lift price_eur=4000 rated_load_kg=800 speed_mm_per_s=1600 machine:1 car:2 \
    counterweight:3 shaft:4 controller:5\n\
    1 GearlessMachine price_eur=7900 power_w=6700 lifts_kg=2100 brakes:6,7 \
    ropes:8,9,10,11,12\n\
    2 Car price_eur=8200 mass_kg=950 persons=10 width_mm=1200 depth_mm=1500 door:13 \
    safety_gear:14\n\
    3 Counterweight price_eur=1350 mass_kg=1350\n\
    4 Shaft floors=5 travel_mm=12000 landing_doors:15,16,17,18,19 buffers:20,21 \
    rails:22,23,24,25,26,27,28,29,30,31,32,33\n\
    5 Controller price_eur=3900 drives_w=11000 drives:1\n\
    6 Brake price_eur=850 holds_kg=2100\n\
    7 Brake price_eur=850 holds_kg=2100\n\
    8 Rope price_eur=310 diameter_mm=10 breaks_at_kg=5200\n\
    9 Rope price_eur=310 diameter_mm=10 breaks_at_kg=5200\n\
    10 Rope price_eur=310 diameter_mm=10 breaks_at_kg=5200\n\
    11 Rope price_eur=310 diameter_mm=10 breaks_at_kg=5200\n\
    12 Rope price_eur=310 diameter_mm=10 breaks_at_kg=5200\n\
    13 CarDoor price_eur=2300 width_mm=900 opening=side\n\
    14 SafetyGear price_eur=880 stops_kg=3000\n\
    15 LandingDoor price_eur=1490 width_mm=900 opening=side fire_class=EI60 moved_by:13\n\
    16 LandingDoor price_eur=1490 width_mm=900 opening=side fire_class=EI60 moved_by:13\n\
    17 LandingDoor price_eur=1490 width_mm=900 opening=side fire_class=EI60 moved_by:13\n\
    18 LandingDoor price_eur=1490 width_mm=900 opening=side fire_class=EI60 moved_by:13\n\
    19 LandingDoor price_eur=1490 width_mm=900 opening=side fire_class=EI60 moved_by:13\n\
    20 OilBuffer price_eur=690\n\
    21 OilBuffer price_eur=690\n\
    22 RailSection price_eur=160 length_mm=5000\n\
    23 RailSection price_eur=160 length_mm=5000\n\
    24 RailSection price_eur=160 length_mm=5000\n\
    25 RailSection price_eur=160 length_mm=5000\n\
    26 RailSection price_eur=160 length_mm=5000\n\
    27 RailSection price_eur=160 length_mm=5000\n\
    28 RailSection price_eur=160 length_mm=5000\n\
    29 RailSection price_eur=160 length_mm=5000\n\
    30 RailSection price_eur=160 length_mm=5000\n\
    31 RailSection price_eur=160 length_mm=5000\n\
    32 RailSection price_eur=160 length_mm=5000\n\
    33 RailSection price_eur=160 length_mm=5000\n";

/// One that doesn't.
pub(super) const BAD: &str = "preferred\n\
    0 Lift price_eur=4000 rated_load_kg=800 speed_mm_per_s=1600 machine:1 car:2 \
    counterweight:3 shaft:4 controller:5\n\
    1 GearlessMachine price_eur=7900 power_w=6700 lifts_kg=2100 brakes:6 \
    ropes:7,8,9,10,11\n\
    2 Car price_eur=8200 mass_kg=950 persons=10 width_mm=1200 depth_mm=1500 door:12 \
    safety_gear:13\n\
    3 Counterweight price_eur=1350 mass_kg=1350\n\
    4 Shaft floors=5 travel_mm=12000 landing_doors:14,15,16,17,18 buffers:19,20 \
    rails:21,22,23,24,25,26,27,28,29,30,31,32\n\
    5 Controller price_eur=3900 drives_w=11000 drives:1\n\
    6 Brake price_eur=1480 holds_kg=4200\n\
    7 Rope price_eur=310 diameter_mm=10 breaks_at_kg=5200\n\
    8 Rope price_eur=310 diameter_mm=10 breaks_at_kg=5200\n\
    9 Rope price_eur=310 diameter_mm=10 breaks_at_kg=5200\n\
    10 Rope price_eur=310 diameter_mm=10 breaks_at_kg=5200\n\
    11 Rope price_eur=310 diameter_mm=10 breaks_at_kg=5200\n\
    12 CarDoor price_eur=2300 width_mm=900 opening=side\n\
    13 SafetyGear price_eur=880 stops_kg=3000\n\
    14 LandingDoor price_eur=1490 width_mm=900 opening=side fire_class=EI60 moved_by:12\n\
    15 LandingDoor price_eur=1490 width_mm=900 opening=side fire_class=EI60 moved_by:12\n\
    16 LandingDoor price_eur=1490 width_mm=900 opening=side fire_class=EI60 moved_by:12\n\
    17 LandingDoor price_eur=1490 width_mm=900 opening=side fire_class=EI60 moved_by:12\n\
    18 LandingDoor price_eur=1490 width_mm=900 opening=side fire_class=EI60 moved_by:12\n\
    19 OilBuffer price_eur=690\n\
    20 OilBuffer price_eur=690\n\
    21 RailSection price_eur=160 length_mm=5000\n\
    22 RailSection price_eur=160 length_mm=5000\n\
    23 RailSection price_eur=160 length_mm=5000\n\
    24 RailSection price_eur=160 length_mm=5000\n\
    25 RailSection price_eur=160 length_mm=5000\n\
    26 RailSection price_eur=160 length_mm=5000\n\
    27 RailSection price_eur=160 length_mm=5000\n\
    28 RailSection price_eur=160 length_mm=5000\n\
    29 RailSection price_eur=160 length_mm=5000\n\
    30 RailSection price_eur=160 length_mm=5000\n\
    31 RailSection price_eur=160 length_mm=5000\n\
    32 RailSection price_eur=160 length_mm=5000\n";
