//! Files that checks are run over.

pub(super) const BOX_COUNT_TWO: &str =
    r#"{"format":"product-model 1","root":"Box","instances":1,"types":[{"name":"Box"}],
"bounds":[{"type":"Box","count":[2,2]}]}"#;

pub(super) const BOX_WIDTH_3: &str =
    r#"{"format":"product-model 1","root":"Box","instances":1,"types":[
{"name":"Box","attributes":[{"name":"width","range":[1,3]}]}]}"#;

pub(super) const CARD_RULES: &str =
    r#"{"format":"product-model 1","root":"Rack","instances":3,"types":[
{"name":"Rack","ports":[{"name":"cards","kind":"part","target":"Card","links":[0,2]}]},
{"name":"Card","attributes":[{"name":"power","range":[1,9]}]}],
"rules":[{"name":"strong","type":"Card","holds":[">=",["attr","power"],5]},
{"name":"weak","type":"Card","holds":["<=",["attr","power"],7]}]}"#;

pub(super) const INVERSE: &str =
    r#"{"format":"product-model 2","root":"Rack","instances":3,"types":[
{"name":"Rack","ports":[{"name":"cards","kind":"part","target":"Card","links":[0,2],
"inverse":"home"}]},
{"name":"Card","ports":[{"name":"home","kind":"use","target":"Rack","links":[1,1],
"inverse":"cards"}]}]}"#;

pub(super) const LEAF_COLOURS: &str =
    r#"{"format":"product-model 1","root":"Box","instances":1,"types":[
{"name":"Box","attributes":[{"name":"colour","words":["red","blue"]}]},
{"name":"Blue","parent":"Box","attributes":[{"name":"colour","words":["blue"]}]}]}"#;

pub(super) const LEAF_SIZES: &str =
    r#"{"format":"product-model 1","root":"Box","instances":1,"types":[
{"name":"Box","attributes":[{"name":"width","range":[1,9]}]},
{"name":"Small","parent":"Box","attributes":[{"name":"width","range":[2,2]}]},
{"name":"Big","parent":"Box","attributes":[{"name":"width","range":[5,5]}]}]}"#;

pub(super) const MATES: &str = r#"{"format":"product-model 2","root":"Node","instances":2,"types":[
{"name":"Node","ports":[{"name":"mate","kind":"use","target":"Node","links":[1,1],
"inverse":"mate"}]}]}"#;

pub(super) const NODE_PART: &str =
    r#"{"format":"product-model 1","root":"Node","instances":3,"types":[
{"name":"Node","ports":[{"name":"next","kind":"part","target":"Node","links":[1,1]}]}]}"#;

pub(super) const NODE_USE: &str =
    r#"{"format":"product-model 1","root":"Node","instances":3,"types":[
{"name":"Node","ports":[{"name":"next","kind":"use","target":"Node","links":[1,1]}]}]}"#;

pub(super) const RACK: &str = r#"{"format":"product-model 1","root":"Rack","instances":5,"types":[
{"name":"Item","attributes":[{"name":"price","range":[0,100]}]},
{"name":"Rack","parent":"Item","attributes":[{"name":"price","range":[50,50]}],
"ports":[{"name":"cards","kind":"part","target":"Card","links":[0,4]}]},
{"name":"Card","parent":"Item","attributes":[{"name":"power","range":[1,20]}]},
{"name":"Small","parent":"Card","attributes":[{"name":"price","range":[10,10]},
{"name":"power","range":[5,5]}]},
{"name":"Big","parent":"Card","attributes":[{"name":"price","range":[18,18]},
{"name":"power","range":[12,12]}]}],
"rules":[{"name":"load","type":"Rack","holds":["<=",["sum","cards","power"],30]}]}"#;

pub(super) const SERVER: &str =
    r#"{"format":"product-model 1","root":"Chassis","instances":24,"types":[
{"name":"Part","attributes":[{"name":"price","range":[0,1000]},
{"name":"watts","range":[0,500]}]},
{"name":"Chassis","parent":"Part","attributes":[{"name":"price","range":[300,300]},
{"name":"watts","range":[20,20]}],
"ports":[{"name":"boards","kind":"part","target":"Board","links":[1,8]},
{"name":"disks","kind":"part","target":"Disk","links":[0,4]},
{"name":"supplies","kind":"part","target":"Supply","links":[1,2]}]},
{"name":"Board","parent":"Part","attributes":[{"name":"ram","range":[0,64]}]},
{"name":"BasicBoard","parent":"Board","attributes":[{"name":"price","range":[100,100]},
{"name":"watts","range":[30,30]},{"name":"ram","range":[16,16]}]},
{"name":"FastBoard","parent":"Board","attributes":[{"name":"price","range":[220,220]},
{"name":"watts","range":[50,50]},{"name":"ram","range":[64,64]}]},
{"name":"Disk","parent":"Part","attributes":[{"name":"size","range":[1,8]}],
"ports":[{"name":"controller","kind":"use","target":"Controller","links":[1,1]}]},
{"name":"SmallDisk","parent":"Disk","attributes":[{"name":"price","range":[40,40]},
{"name":"watts","range":[5,5]},{"name":"size","range":[2,2]}]},
{"name":"LargeDisk","parent":"Disk","attributes":[{"name":"price","range":[110,110]},
{"name":"watts","range":[8,8]},{"name":"size","range":[8,8]}]},
{"name":"Supply","parent":"Part","attributes":[{"name":"output","range":[0,800]}]},
{"name":"Supply400","parent":"Supply","attributes":[{"name":"price","range":[60,60]},
{"name":"watts","range":[0,0]},{"name":"output","range":[400,400]}]},
{"name":"Supply800","parent":"Supply","attributes":[{"name":"price","range":[150,150]},
{"name":"watts","range":[0,0]},{"name":"output","range":[800,800]}]},
{"name":"Controller","parent":"Part","attributes":[{"name":"price","range":[50,90]},
{"name":"watts","range":[4,4]},{"name":"bus","words":["sata","sas"]}]}],
"rules":[{"name":"power","type":"Chassis","holds":[">=",["sum","supplies","output"],["total",
"Part","watts"]]},
{"name":"wide","type":"LargeDisk","holds":["all","controller",["is","bus","sas"]]},
{"name":"dear","type":"Controller","holds":["if",["is","bus","sas"],["=",["attr","price"],90]]},
{"name":"cheap","type":"Controller","holds":["if",["is","bus","sata"],["=",["attr","price"],
50]]}]}"#;

pub(super) const SHARE: &str = r#"{"format":"product-model 1","root":"Rack","instances":5,"types":[
{"name":"Rack","ports":[{"name":"cards","kind":"part","target":"Card","links":[2,2]}]},
{"name":"Card","ports":[{"name":"driver","kind":"use","target":"Driver","links":[1,1]}]},
{"name":"Driver"}]}"#;

pub(super) const TRUTHS: &str = r#"{"format":"product-model 1","root":"Rack","instances":4,"types":[
{"name":"Item"},
{"name":"Rack","parent":"Item","ports":[{"name":"cards","kind":"part","target":"Card",
"links":[0,3]},{"name":"spare","kind":"part","target":"Card","links":[0,3]}]},
{"name":"Card","parent":"Item","attributes":[{"name":"power","range":[1,9]},
{"name":"bus","words":["sata","sas"]}]},
{"name":"Small","parent":"Card"},
{"name":"Big","parent":"Card"}],
"rules":[{"name":"less","type":"Rack","holds":["<",["count","cards"],3]},
{"name":"at_most","type":"Rack","holds":["<=",["count","cards"],2]},
{"name":"equal","type":"Rack","holds":["=",["count","cards","Big"],1]},
{"name":"differs","type":"Rack","holds":["!=",["sum","cards","power"],6]},
{"name":"at_least","type":"Rack","holds":[">=",["total","Card","power"],7]},
{"name":"greater","type":"Rack","holds":[">",["number","Item"],2]},
{"name":"not_less","type":"Rack","holds":["not",["<",["count","cards"],2]]},
{"name":"and","type":"Rack","holds":["and",["<",1,2],["kind","Item"],["kind","Rack"]]},
{"name":"or","type":"Rack","holds":["or",["<",2,1],["kind","Rack"]]},
{"name":"not_kind","type":"Rack","holds":["not",["kind","Card"]]},
{"name":"if_false","type":"Rack","holds":["if",["<",2,1],["<",2,1]]},
{"name":"if_true","type":"Rack","holds":["if",["<",1,2],["=",["count","cards"],2]]},
{"name":"all","type":"Rack","holds":["all","cards",["kind","Card"]]},
{"name":"not_all","type":"Rack","holds":["not",["all","cards",["kind","Big"]]]},
{"name":"any","type":"Rack","holds":["any","cards",["and",["kind","Big"],["is","bus","sas"]]]},
{"name":"not_any","type":"Rack","holds":["not",["any","cards",["=",["attr","power"],9]]]},
{"name":"all_of_none","type":"Rack","holds":["all","spare",["<",1,0]]},
{"name":"none_of_none","type":"Rack","holds":["not",["any","spare",["<",0,1]]]},
{"name":"is","type":"Big","holds":["is","bus","sas"]},
{"name":"is_not","type":"Small","holds":["not",["is","bus","sas"]]}]}"#;

pub(super) const TWO_PORTS: &str =
    r#"{"format":"product-model 1","root":"Rack","instances":3,"types":[
{"name":"Rack","ports":[{"name":"left","kind":"part","target":"Card","links":[0,2]},
{"name":"right","kind":"part","target":"Card","links":[0,2]}]},
{"name":"Card"}]}"#;

pub(super) const CHEAPEST: &str = r#"{"format":"order 1",
"criteria":[{"name":"cost","minimise":["total","Item","price"]}]}"#;

pub(super) const EVERY_NUMBER: &str = r#"{"format":"order 1",
"criteria":[{"name":"count","maximise":["count","cards"]},
{"name":"count_of","maximise":["count","cards","Big"]},
{"name":"sum","maximise":["sum","cards","power"]},
{"name":"total","minimise":["total","Item","price"]},
{"name":"number","minimise":["number","Card"]},
{"name":"plus","minimise":["+",1,["attr","price"],2]},
{"name":"minus","minimise":["-",["attr","price"],7]},
{"name":"times","minimise":["*",-3,["number","Small"]]}]}"#;

pub(super) const FEW_STRONG_SMALL: &str = r#"{"format":"order 1",
"requests":[{"name":"few","holds":["<=",["count","cards"],1]},
{"name":"strong","holds":[">=",["sum","cards","power"],20]},
{"name":"small","holds":[">=",["number","Small"],1]}]}"#;

pub(super) const MOST_CARDS: &str = r#"{"format":"order 1",
"criteria":[{"name":"cards","maximise":["count","cards"]}]}"#;

pub(super) const SERVER_ORDER: &str = r#"{"format":"order 1",
"requests":[{"name":"slots","holds":["=",["count","boards"],8]},
{"name":"ram","holds":[">=",["sum","boards","ram"],224]},
{"name":"disks","holds":["=",["count","disks"],4]},
{"name":"space","holds":[">=",["sum","disks","size"],14]},
{"name":"redundant","holds":["=",["count","supplies"],2]},
{"name":"one_bus","holds":["<=",["number","Controller"],2]},
{"name":"budget","holds":["<=",["total","Part","price"],2500]},
{"name":"fast_limit","holds":["<=",["count","boards","FastBoard"],3]},
{"name":"some_sas","holds":["any","disks",["any","controller",["is","bus","sas"]]]}],
"criteria":[{"name":"cost","minimise":["total","Part","price"]},
{"name":"ram","maximise":["sum","boards","ram"]},
{"name":"controllers","minimise":["number","Controller"]}]}"#;

pub(super) const STRONG_20_CHEAPEST: &str =
    r#"{"format":"order 1","requests":[{"name":"strong","holds":[">=",["sum","cards","power"],20]}],
"criteria":[{"name":"cost","minimise":["total","Item","price"]}]}"#;

pub(super) const STRONG_20: &str = r#"{"format":"order 1",
"requests":[{"name":"strong","holds":[">=",["sum","cards","power"],20]}]}"#;

pub(super) const WIDEST: &str = r#"{"format":"order 1",
"criteria":[{"name":"w","maximise":["attr","width"]}]}"#;

pub(super) const INVERSE_NOT_LINKED_BACK: &str = r"preferred
0 Rack cards:1
1 Card home:2
2 Rack cards:
";

pub(super) const INVERSE_TWO_CARDS: &str = r"preferred
0 Rack cards:1,2
1 Card home:0
2 Card home:0
";

pub(super) const RACK_BIG_BIG: &str = r"preferred
0 Rack price=50 cards:1,2
1 Big price=18 power=12
2 Big price=18 power=12
";

pub(super) const RACK_PRICE_018: &str = r"preferred
0 Rack price=50 cards:1,2
1 Big price=018 power=12
2 Big price=18 power=12
";

pub(super) const RACK_SMALL_BIG: &str = r"preferred
0 Rack price=50 cards:1,2
1 Small price=10 power=5
2 Big price=18 power=12
";

pub(super) const RACK_THREE_BIG: &str = r"preferred
0 Rack price=50 cards:1,2,3
1 Big price=18 power=12
2 Big price=18 power=12
3 Big price=18 power=12
";

pub(super) const SERVER_ANSWER: &str = r"preferred
0 Chassis price=300 watts=20 boards:1,2,3,4,5,6,7,8 disks:9,10,11,12 supplies:13,14
1 BasicBoard price=100 watts=30 ram=16
2 BasicBoard price=100 watts=30 ram=16
3 BasicBoard price=100 watts=30 ram=16
4 BasicBoard price=100 watts=30 ram=16
5 BasicBoard price=100 watts=30 ram=16
6 BasicBoard price=100 watts=30 ram=16
7 FastBoard price=220 watts=50 ram=64
8 FastBoard price=220 watts=50 ram=64
9 SmallDisk price=40 watts=5 size=2 controller:15
10 SmallDisk price=40 watts=5 size=2 controller:15
11 SmallDisk price=40 watts=5 size=2 controller:15
12 LargeDisk price=110 watts=8 size=8 controller:15
13 Supply400 price=60 watts=0 output=400
14 Supply400 price=60 watts=0 output=400
15 Controller price=90 watts=4 bus=sas
";

pub(super) const SHARE_ONE_DRIVER: &str = r"preferred
0 Rack cards:1,2
1 Card driver:3
2 Card driver:3
3 Driver
";

pub(super) const TRUTHS_ANSWER: &str = r"preferred
0 Rack cards:1,2 spare:
1 Small power=3 bus=sata
2 Big power=4 bus=sas
";

pub(super) const TWO_PORTS_CARD_TWICE: &str = r"preferred
0 Rack left:1,2 right:2
1 Card
2 Card
";

pub(super) const TWO_PORTS_CROSSED: &str = r"preferred
0 Rack left:2 right:1
1 Card
2 Card
";

pub(super) const TWO_PORTS_DESCENDING: &str = r"preferred
0 Rack left:2,1 right:
1 Card
2 Card
";

pub(super) const TWO_PORTS_ONE_CARD: &str = r"preferred
0 Rack left:1 right:
1 Card
";
