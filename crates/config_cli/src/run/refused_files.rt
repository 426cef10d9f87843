//! Files that are refused: a model and an order, and the line that is written.
use super::tests::{BOX, NO_CRITERIA};

/// The bytes of a model and of an order, and the line that tells which is refused, and why.
pub(super) type Refused = (&'static str, &'static str, &'static str);

/// Files with a value that is wrong by itself.
pub(super) const OF_VALUES: [Refused; 20] = [
    (r#""#, NO_CRITERIA, "refused model F02 /\n"),
    (
        r#"{"format":"product-model 1","root":"#,
        NO_CRITERIA,
        "refused model F02 /\n",
    ),
    (BOX, r#"{"#, "refused order F02 /\n"),
    (r#"[]"#, NO_CRITERIA, "refused model F03 /\n"),
    (
        "{\"format\":\"product-model 1\",\"root\":\"Box\",\"instances\":1,\
            \"types\":[{\"name\":\"Box\"}],\"colour\":1}",
        NO_CRITERIA,
        "refused model F03 /\n",
    ),
    (
        r#"{"format":"product-model 1","root":"Box","instances":1.0,"types":[{"name":"Box"}]}"#,
        NO_CRITERIA,
        "refused model F03 /instances\n",
    ),
    (
        "{\"format\":\"product-model 1\",\"root\":\"Box\",\"instances\":1,\
            \"types\":[{\"name\":\"Box\",\"attributes\":[{\"name\":\"width\",\"range\":[1,3],\
            \"words\":[\"red\"]}]}]}",
        NO_CRITERIA,
        "refused model F03 /types/0/attributes/0\n",
    ),
    (
        "{\"format\":\"product-model 1\",\"root\":\"Rack\",\"instances\":3,\
            \"types\":[{\"name\":\"Rack\",\"ports\":[{\"name\":\"cards\",\"kind\":\"part\",\
            \"target\":\"Card\",\"links\":[0,2],\"inverse\":\"home\"}]},{\"name\":\"Card\",\
            \"ports\":[{\"name\":\"home\",\"kind\":\"use\",\"target\":\"Rack\",\"links\":[1,1],\
            \"inverse\":\"cards\"}]}]}",
        NO_CRITERIA,
        "refused model F03 /types/0/ports/0\n",
    ),
    (
        BOX,
        r#"{"format":"order 1","criteria":[{"name":"w","minimise":1,"maximise":1}]}"#,
        "refused order F03 /criteria/0\n",
    ),
    (
        "{\"format\":\"product-model 1\",\"root\":\"Box\",\"instances\":1,\
            \"types\":[{\"name\":\"Box\",\"attributes\":[{\"name\":\"colour\",\"words\":[]}]}]}",
        NO_CRITERIA,
        "refused model F04 /types/0/attributes/0/words\n",
    ),
    (
        BOX,
        "{\"format\":\"order 1\",\"criteria\":[{\"name\":\"c0\",\"minimise\":1},\
            {\"name\":\"c1\",\"minimise\":1},{\"name\":\"c2\",\"minimise\":1},{\"name\":\"c3\",\
            \"minimise\":1},{\"name\":\"c4\",\"minimise\":1},{\"name\":\"c5\",\"minimise\":1},\
            {\"name\":\"c6\",\"minimise\":1},{\"name\":\"c7\",\"minimise\":1},{\"name\":\"c8\",\
            \"minimise\":1}]}",
        "refused order F04 /criteria\n",
    ),
    (
        "{\"format\":\"product-model 1\",\"root\":\"Box\",\"instances\":1,\
            \"types\":[{\"name\":\"Box\"},{\"name\":\"1Lid\"}]}",
        NO_CRITERIA,
        "refused model F05 /types/1/name\n",
    ),
    (
        "{\"format\":\"product-model 1\",\"root\":\"Box\",\"instances\":1,\
            \"types\":[{\"name\":\"Box\",\"attributes\":[{\"name\":\"colour\",\"words\":[\"red\",\
            \"light blue\"]}]}]}",
        NO_CRITERIA,
        "refused model F05 /types/0/attributes/0/words/1\n",
    ),
    (
        BOX,
        r#"{"format":"order 1","criteria":[{"name":"c.1","minimise":1}]}"#,
        "refused order F05 /criteria/0/name\n",
    ),
    (
        "{\"format\":\"product-model 1\",\"root\":\"Box\",\"instances\":1,\
            \"types\":[{\"name\":\"Box\"},{\"name\":\"Box\"}]}",
        NO_CRITERIA,
        "refused model F06 /types/1/name\n",
    ),
    (
        "{\"format\":\"product-model 1\",\"root\":\"Box\",\"instances\":1,\
            \"types\":[{\"name\":\"Box\"}],\"bounds\":[{\"type\":\"Box\",\"count\":[0,1]},\
            {\"type\":\"Box\",\"count\":[1,1]}]}",
        NO_CRITERIA,
        "refused model F06 /bounds/1/type\n",
    ),
    (
        BOX,
        "{\"format\":\"order 1\",\"requests\":[{\"name\":\"q\",\"holds\":[\"<\",0,1]},\
            {\"name\":\"q\",\"holds\":[\"<\",0,1]}]}",
        "refused order F06 /requests/1/name\n",
    ),
    (
        r#"{"format":"product-model 1","root":"Box","instances":257,"types":[{"name":"Box"}]}"#,
        NO_CRITERIA,
        "refused model F07 /instances\n",
    ),
    (
        "{\"format\":\"product-model 1\",\"root\":\"Box\",\"instances\":1,\
            \"types\":[{\"name\":\"Box\",\"attributes\":[{\"name\":\"width\",\"range\":[0,\
            1000001]}]}]}",
        NO_CRITERIA,
        "refused model F07 /types/0/attributes/0/range/1\n",
    ),
    (
        "{\"format\":\"product-model 1\",\"root\":\"Box\",\"instances\":1,\
            \"types\":[{\"name\":\"Box\"}],\"bounds\":[{\"type\":\"Box\",\"count\":[0,-1]}]}",
        NO_CRITERIA,
        "refused model F07 /bounds/0/count\n",
    ),
];

/// Models whose types are wrong together.
pub(super) const OF_TYPES: [Refused; 12] = [
    (
        r#"{"format":"product-model 1","root":"Box","instances":1,"types":[]}"#,
        NO_CRITERIA,
        "refused model F08 /root\n",
    ),
    (
        "{\"format\":\"product-model 1\",\"root\":\"Box\",\"instances\":1,\
            \"types\":[{\"name\":\"Box\"},{\"name\":\"Lid\",\"parent\":\"Part\"}]}",
        NO_CRITERIA,
        "refused model F08 /types/1/parent\n",
    ),
    (
        "{\"format\":\"product-model 1\",\"root\":\"Box\",\"instances\":1,\
            \"types\":[{\"name\":\"Box\"}],\"rules\":[{\"name\":\"r\",\"type\":\"Lid\",\
            \"holds\":[\"<\",0,1]}]}",
        NO_CRITERIA,
        "refused model F08 /rules/0/type\n",
    ),
    (
        "{\"format\":\"product-model 1\",\"root\":\"A\",\"instances\":1,\
            \"types\":[{\"name\":\"A\",\"parent\":\"B\"},{\"name\":\"B\",\"parent\":\"A\"}]}",
        NO_CRITERIA,
        "refused model F09 /types/0\n",
    ),
    (
        "{\"format\":\"product-model 1\",\"root\":\"A\",\"instances\":1,\
            \"types\":[{\"name\":\"A\",\"parent\":\"B\"},{\"name\":\"B\",\"parent\":\"C\"},\
            {\"name\":\"C\",\"parent\":\"B\"}]}",
        NO_CRITERIA,
        "refused model F09 /types/1\n",
    ),
    (
        "{\"format\":\"product-model 1\",\"root\":\"Box\",\"instances\":1,\
            \"types\":[{\"name\":\"Box\",\"attributes\":[{\"name\":\"lid\",\"range\":[0,1]}]},\
            {\"name\":\"Small\",\"parent\":\"Box\",\"ports\":[{\"name\":\"lid\",\
            \"kind\":\"part\",\"target\":\"Box\",\"links\":[0,1]}]}]}",
        NO_CRITERIA,
        "refused model F10 /types/1/ports/0\n",
    ),
    (
        "{\"format\":\"product-model 1\",\"root\":\"Box\",\"instances\":1,\
            \"types\":[{\"name\":\"Box\",\"attributes\":[{\"name\":\"width\",\"range\":[0,9]}]},\
            {\"name\":\"Small\",\"parent\":\"Box\",\"attributes\":[{\"name\":\"width\",\
            \"range\":[0,3]}]},{\"name\":\"Tiny\",\"parent\":\"Small\",\
            \"attributes\":[{\"name\":\"width\",\"range\":[0,5]}]}]}",
        NO_CRITERIA,
        "refused model F10 /types/2/attributes/0\n",
    ),
    (
        "{\"format\":\"product-model 1\",\"root\":\"Box\",\"instances\":1,\
            \"types\":[{\"name\":\"Box\",\"ports\":[{\"name\":\"p0\",\"kind\":\"use\",\
            \"target\":\"Box\",\"links\":[0,1]},{\"name\":\"p1\",\"kind\":\"use\",\
            \"target\":\"Box\",\"links\":[0,1]},{\"name\":\"p2\",\"kind\":\"use\",\
            \"target\":\"Box\",\"links\":[0,1]},{\"name\":\"p3\",\"kind\":\"use\",\
            \"target\":\"Box\",\"links\":[0,1]},{\"name\":\"p4\",\"kind\":\"use\",\
            \"target\":\"Box\",\"links\":[0,1]},{\"name\":\"p5\",\"kind\":\"use\",\
            \"target\":\"Box\",\"links\":[0,1]},{\"name\":\"p6\",\"kind\":\"use\",\
            \"target\":\"Box\",\"links\":[0,1]},{\"name\":\"p7\",\"kind\":\"use\",\
            \"target\":\"Box\",\"links\":[0,1]},{\"name\":\"p8\",\"kind\":\"use\",\
            \"target\":\"Box\",\"links\":[0,1]},{\"name\":\"p9\",\"kind\":\"use\",\
            \"target\":\"Box\",\"links\":[0,1]},{\"name\":\"p10\",\"kind\":\"use\",\
            \"target\":\"Box\",\"links\":[0,1]},{\"name\":\"p11\",\"kind\":\"use\",\
            \"target\":\"Box\",\"links\":[0,1]},{\"name\":\"p12\",\"kind\":\"use\",\
            \"target\":\"Box\",\"links\":[0,1]},{\"name\":\"p13\",\"kind\":\"use\",\
            \"target\":\"Box\",\"links\":[0,1]},{\"name\":\"p14\",\"kind\":\"use\",\
            \"target\":\"Box\",\"links\":[0,1]},{\"name\":\"p15\",\"kind\":\"use\",\
            \"target\":\"Box\",\"links\":[0,1]},{\"name\":\"p16\",\"kind\":\"use\",\
            \"target\":\"Box\",\"links\":[0,1]}]}]}",
        NO_CRITERIA,
        "refused model F11 /types/0\n",
    ),
    (
        "{\"format\":\"product-model 1\",\"root\":\"Box\",\"instances\":1,\
            \"types\":[{\"name\":\"Box\",\"ports\":[{\"name\":\"p0\",\"kind\":\"use\",\
            \"target\":\"Box\",\"links\":[0,1]},{\"name\":\"p1\",\"kind\":\"use\",\
            \"target\":\"Box\",\"links\":[0,1]},{\"name\":\"p2\",\"kind\":\"use\",\
            \"target\":\"Box\",\"links\":[0,1]},{\"name\":\"p3\",\"kind\":\"use\",\
            \"target\":\"Box\",\"links\":[0,1]},{\"name\":\"p4\",\"kind\":\"use\",\
            \"target\":\"Box\",\"links\":[0,1]},{\"name\":\"p5\",\"kind\":\"use\",\
            \"target\":\"Box\",\"links\":[0,1]},{\"name\":\"p6\",\"kind\":\"use\",\
            \"target\":\"Box\",\"links\":[0,1]},{\"name\":\"p7\",\"kind\":\"use\",\
            \"target\":\"Box\",\"links\":[0,1]},{\"name\":\"p8\",\"kind\":\"use\",\
            \"target\":\"Box\",\"links\":[0,1]},{\"name\":\"p9\",\"kind\":\"use\",\
            \"target\":\"Box\",\"links\":[0,1]},{\"name\":\"p10\",\"kind\":\"use\",\
            \"target\":\"Box\",\"links\":[0,1]},{\"name\":\"p11\",\"kind\":\"use\",\
            \"target\":\"Box\",\"links\":[0,1]},{\"name\":\"p12\",\"kind\":\"use\",\
            \"target\":\"Box\",\"links\":[0,1]},{\"name\":\"p13\",\"kind\":\"use\",\
            \"target\":\"Box\",\"links\":[0,1]},{\"name\":\"p14\",\"kind\":\"use\",\
            \"target\":\"Box\",\"links\":[0,1]},{\"name\":\"p15\",\"kind\":\"use\",\
            \"target\":\"Box\",\"links\":[0,1]}]},{\"name\":\"Small\",\"parent\":\"Box\",\
            \"ports\":[{\"name\":\"q\",\"kind\":\"use\",\"target\":\"Box\",\"links\":[0,1]}]}]}",
        NO_CRITERIA,
        "refused model F11 /types/1\n",
    ),
    (
        "{\"format\":\"product-model 2\",\"root\":\"Rack\",\"instances\":3,\
            \"types\":[{\"name\":\"Rack\",\"ports\":[{\"name\":\"cards\",\"kind\":\"part\",\
            \"target\":\"Card\",\"links\":[0,2],\"inverse\":\"home\"}]},{\"name\":\"Card\",\
            \"ports\":[{\"name\":\"home\",\"kind\":\"use\",\"target\":\"Rack\",\"links\":[1,1]}]}\
            ]}",
        NO_CRITERIA,
        "refused model F17 /types/0/ports/0/inverse\n",
    ),
    (
        "{\"format\":\"product-model 2\",\"root\":\"Rack\",\"instances\":3,\
            \"types\":[{\"name\":\"Rack\",\"ports\":[{\"name\":\"cards\",\"kind\":\"part\",\
            \"target\":\"Card\",\"links\":[0,2],\"inverse\":\"home\"}]},{\"name\":\"Card\",\
            \"ports\":[{\"name\":\"home\",\"kind\":\"part\",\"target\":\"Rack\",\"links\":[1,1],\
            \"inverse\":\"cards\"}]}]}",
        NO_CRITERIA,
        "refused model F17 /types/0/ports/0/inverse\n",
    ),
    (
        "{\"format\":\"product-model 2\",\"root\":\"Rack\",\"instances\":3,\
            \"types\":[{\"name\":\"Rack\",\"ports\":[{\"name\":\"cards\",\"kind\":\"part\",\
            \"target\":\"Card\",\"links\":[0,2],\"inverse\":\"home\"}]},{\"name\":\"Card\",\
            \"ports\":[{\"name\":\"home\",\"kind\":\"use\",\"target\":\"Rack\",\"links\":[1,1],\
            \"inverse\":\"cards\"}]},{\"name\":\"Wide\",\"parent\":\"Rack\",\
            \"ports\":[{\"name\":\"cards\",\"kind\":\"part\",\"target\":\"Card\",\"links\":[1,2],\
            \"inverse\":\"home\"}]}]}",
        NO_CRITERIA,
        "refused model F17 /types/2/ports/0/inverse\n",
    ),
];

/// Files with an expression that is wrong.
pub(super) const OF_EXPRESSIONS: [Refused; 13] = [
    (
        "{\"format\":\"product-model 1\",\"root\":\"Box\",\"instances\":1,\
            \"types\":[{\"name\":\"Box\",\"attributes\":[{\"name\":\"width\",\"range\":[0,9]},\
            {\"name\":\"colour\",\"words\":[\"red\",\"blue\"]}]}],\"rules\":[{\"name\":\"r\",\
            \"type\":\"Box\",\"holds\":[\"mod\",7,2]}]}",
        NO_CRITERIA,
        "refused model F12 /rules/0/holds\n",
    ),
    (
        "{\"format\":\"product-model 1\",\"root\":\"Box\",\"instances\":1,\
            \"types\":[{\"name\":\"Box\",\"attributes\":[{\"name\":\"width\",\"range\":[0,9]},\
            {\"name\":\"colour\",\"words\":[\"red\",\"blue\"]}]}],\"rules\":[{\"name\":\"r\",\
            \"type\":\"Box\",\"holds\":[\"<\",[\"*\",[\"attr\",\"width\"],2],5]}]}",
        NO_CRITERIA,
        "refused model F12 /rules/0/holds/1/1\n",
    ),
    (
        BOX,
        r#"{"format":"order 1","criteria":[{"name":"c","minimise":["-",1]}]}"#,
        "refused order F12 /criteria/0/minimise\n",
    ),
    (
        "{\"format\":\"product-model 1\",\"root\":\"Box\",\"instances\":1,\
            \"types\":[{\"name\":\"Box\",\"attributes\":[{\"name\":\"width\",\"range\":[0,9]},\
            {\"name\":\"colour\",\"words\":[\"red\",\"blue\"]}]}],\"rules\":[{\"name\":\"r\",\
            \"type\":\"Box\",\"holds\":[\"not\",[\"not\",[\"not\",[\"not\",[\"not\",[\"not\",\
            [\"not\",[\"not\",[\"not\",[\"not\",[\"not\",[\"not\",[\"not\",[\"not\",[\"not\",\
            [\"<\",0,1]]]]]]]]]]]]]]]]}]}",
        NO_CRITERIA,
        "refused model F13 /rules/0/holds/1/1/1/1/1/1/1/1/1/1/1/1/1/1/1/1\n",
    ),
    (
        BOX,
        "{\"format\":\"order 1\",\"requests\":[{\"name\":\"q\",\"holds\":[\"not\",[\"not\",\
            [\"not\",[\"not\",[\"not\",[\"not\",[\"not\",[\"not\",[\"not\",[\"not\",[\"not\",\
            [\"not\",[\"not\",[\"not\",[\"not\",[\"<\",0,1]]]]]]]]]]]]]]]]}]}",
        "refused order F13 /requests/0/holds/1/1/1/1/1/1/1/1/1/1/1/1/1/1/1/1\n",
    ),
    (
        "{\"format\":\"product-model 1\",\"root\":\"Box\",\"instances\":1,\
            \"types\":[{\"name\":\"Box\",\"attributes\":[{\"name\":\"width\",\"range\":[0,9]},\
            {\"name\":\"colour\",\"words\":[\"red\",\"blue\"]}]}],\"rules\":[{\"name\":\"r\",\
            \"type\":\"Box\",\"holds\":[\"<\",[\"attr\",\"depth\"],1]}]}",
        NO_CRITERIA,
        "refused model F14 /rules/0/holds/1/1\n",
    ),
    (
        "{\"format\":\"product-model 1\",\"root\":\"Box\",\"instances\":1,\
            \"types\":[{\"name\":\"Box\",\"attributes\":[{\"name\":\"width\",\"range\":[0,9]},\
            {\"name\":\"colour\",\"words\":[\"red\",\"blue\"]}]}],\"rules\":[{\"name\":\"r\",\
            \"type\":\"Box\",\"holds\":[\"is\",\"colour\",\"green\"]}]}",
        NO_CRITERIA,
        "refused model F14 /rules/0/holds/2\n",
    ),
    (
        BOX,
        r#"{"format":"order 1","criteria":[{"name":"c","maximise":["attr","depth"]}]}"#,
        "refused order F14 /criteria/0/maximise/1\n",
    ),
    (
        "{\"format\":\"product-model 1\",\"root\":\"Box\",\"instances\":1,\
            \"types\":[{\"name\":\"Box\",\"attributes\":[{\"name\":\"width\",\"range\":[0,9]},\
            {\"name\":\"colour\",\"words\":[\"red\",\"blue\"]}]}],\"rules\":[{\"name\":\"r\",\
            \"type\":\"Box\",\"holds\":[\"and\",[\"<\",0,1],1]}]}",
        NO_CRITERIA,
        "refused model F15 /rules/0/holds/2\n",
    ),
    (
        "{\"format\":\"product-model 1\",\"root\":\"Box\",\"instances\":1,\
            \"types\":[{\"name\":\"Box\",\"attributes\":[{\"name\":\"width\",\"range\":[0,9]},\
            {\"name\":\"colour\",\"words\":[\"red\",\"blue\"]}]}],\"rules\":[{\"name\":\"r\",\
            \"type\":\"Box\",\"holds\":[\"<\",[\"attr\",\"colour\"],1]}]}",
        NO_CRITERIA,
        "refused model F15 /rules/0/holds/1/1\n",
    ),
    (
        BOX,
        r#"{"format":"order 1","requests":[{"name":"q","holds":1}]}"#,
        "refused order F15 /requests/0/holds\n",
    ),
    (
        "{\"format\":\"product-model 1\",\"root\":\"Box\",\"instances\":1,\
            \"types\":[{\"name\":\"Box\",\"attributes\":[{\"name\":\"width\",\"range\":[0,9]},\
            {\"name\":\"colour\",\"words\":[\"red\",\"blue\"]}]}],\"rules\":[{\"name\":\"r\",\
            \"type\":\"Box\",\"holds\":[\"<\",[\"+\",1000000000000000,[\"attr\",\"width\"]],0]}]}",
        NO_CRITERIA,
        "refused model F16 /rules/0/holds/1\n",
    ),
    (
        BOX,
        r#"{"format":"order 1","criteria":[{"name":"c","minimise":1000000000000001}]}"#,
        "refused order F16 /criteria/0/minimise\n",
    ),
];
