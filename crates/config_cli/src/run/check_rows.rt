//! Answers that are checked, and the line or the lines that are written.
use super::check_files::{
    BOX_COUNT_TWO, BOX_WIDTH_3, CARD_RULES, CHEAPEST, EVERY_NUMBER, FEW_STRONG_SMALL, INVERSE,
    INVERSE_NOT_LINKED_BACK, INVERSE_TWO_CARDS, LEAF_COLOURS, LEAF_SIZES, MATES, MOST_CARDS,
    NODE_PART, NODE_USE, RACK, RACK_BIG_BIG, RACK_PRICE_018, RACK_SMALL_BIG, RACK_THREE_BIG,
    SERVER, SERVER_ANSWER, SERVER_ORDER, SHARE, SHARE_ONE_DRIVER, STRONG_20, STRONG_20_CHEAPEST,
    TRUTHS, TRUTHS_ANSWER, TWO_PORTS, TWO_PORTS_CARD_TWICE, TWO_PORTS_CROSSED,
    TWO_PORTS_DESCENDING, TWO_PORTS_ONE_CARD, WIDEST,
};
use super::tests::{BOX, NO_CRITERIA};

/// A model and an answer that is refused for it, and the line.
pub(super) type RefusedAnswer = (&'static str, &'static str, &'static str);

/// A model, an order and an answer, and what is written.
pub(super) type Told = (&'static str, &'static str, &'static str, &'static str);

pub(super) const REFUSED: [RefusedAnswer; 27] = [
    (BOX, "preferred\n0 Box", "refused answer A6 2\n"),
    (TWO_PORTS, TWO_PORTS_DESCENDING, "refused answer A5 2\n"),
    (TWO_PORTS, "", "refused answer A1 1\n"),
    (BOX, "prefered\n0 Box\n", "refused answer A1 1\n"),
    (BOX, "preferred", "refused answer A6 1\n"),
    (BOX, "preferred\r\n0 Box\r\n", "refused answer A6 1\n"),
    (BOX, "preferred\n", "refused answer A2 2\n"),
    (BOX, "preferred\n1 Box\n", "refused answer A2 2\n"),
    (BOX, "preferred\n00 Box\n", "refused answer A2 2\n"),
    (BOX, "preferred\n0 Box\n\n", "refused answer A2 3\n"),
    (BOX, "preferred\n0 Lid\n", "refused answer A3 2\n"),
    (BOX, "preferred\n0 Boxes\n", "refused answer A3 2\n"),
    (
        LEAF_SIZES,
        "preferred\n0 Box width=2\n",
        "refused answer A3 2\n",
    ),
    (BOX, "preferred\n0  Box\n", "refused answer A3 2\n"),
    (BOX_WIDTH_3, "preferred\n0 Box\n", "refused answer A4 2\n"),
    (
        BOX_WIDTH_3,
        "preferred\n0 Box width=\n",
        "refused answer A4 2\n",
    ),
    (
        r#"{"format":"product-model 1","root":"Box","instances":1,"types":[{"name":"Box",
"attributes":[{"name":"width","range":[-1,1]}]}]}"#,
        "preferred\n0 Box width=-0\n",
        "refused answer A4 2\n",
    ),
    (
        BOX_WIDTH_3,
        "preferred\n0 Box width=+1\n",
        "refused answer A4 2\n",
    ),
    (
        BOX_WIDTH_3,
        "preferred\n0 Box width=1000001\n",
        "refused answer A4 2\n",
    ),
    (
        LEAF_COLOURS,
        "preferred\n0 Blue colour=green\n",
        "refused answer A4 2\n",
    ),
    (
        TWO_PORTS,
        "preferred\n0 Rack left:1\n1 Card\n",
        "refused answer A5 2\n",
    ),
    (
        TWO_PORTS,
        "preferred\n0 Rack left:1,1 right:\n1 Card\n",
        "refused answer A5 2\n",
    ),
    (
        TWO_PORTS,
        "preferred\n0 Rack left:1, right:\n1 Card\n",
        "refused answer A5 2\n",
    ),
    (
        TWO_PORTS,
        "preferred\n0 Rack left:256 right:\n",
        "refused answer A5 2\n",
    ),
    (BOX, "preferred\n0 Box \n", "refused answer A6 2\n"),
    (RACK, RACK_PRICE_018, "refused answer A4 3\n"),
    (
        RACK,
        "preferred\n0 Rack price=50 cards:1,2\n1 Big price=018 power=12\n2 Big price=18 \
            power=12\nnonsense\n",
        "refused answer A4 3\n",
    ),
];

pub(super) const BROKEN: [Told; 21] = [
    (
        TWO_PORTS,
        NO_CRITERIA,
        TWO_PORTS_CARD_TWICE,
        "broken B07 2 -\n",
    ),
    (
        TWO_PORTS,
        NO_CRITERIA,
        TWO_PORTS_CROSSED,
        "broken B08 2 -\n",
    ),
    (
        BOX,
        NO_CRITERIA,
        "preferred\n0 Box\n1 Box\n",
        "broken B01 1 -\n",
    ),
    (
        TWO_PORTS,
        NO_CRITERIA,
        "preferred\n0 Card\n",
        "broken B02 0 -\n",
    ),
    (
        BOX_WIDTH_3,
        NO_CRITERIA,
        "preferred\n0 Box width=4\n",
        "broken B03 0 width\n",
    ),
    (
        LEAF_COLOURS,
        NO_CRITERIA,
        "preferred\n0 Blue colour=red\n",
        "broken B03 0 colour\n",
    ),
    (
        TWO_PORTS,
        NO_CRITERIA,
        "preferred\n0 Rack left:1 right:\n",
        "broken B04 0 left\n",
    ),
    (
        TWO_PORTS,
        NO_CRITERIA,
        "preferred\n0 Rack left:1 right:\n1 Rack left: right:\n",
        "broken B05 0 left\n",
    ),
    (
        SHARE,
        NO_CRITERIA,
        "preferred\n0 Rack cards:1\n1 Card driver:2\n2 Driver\n",
        "broken B06 0 cards\n",
    ),
    (
        NODE_PART,
        NO_CRITERIA,
        "preferred\n0 Node next:0\n",
        "broken B07 0 -\n",
    ),
    (
        TWO_PORTS,
        NO_CRITERIA,
        "preferred\n0 Rack left:1 right:\n1 Card\n2 Card\n",
        "broken B08 2 -\n",
    ),
    (
        NODE_USE,
        NO_CRITERIA,
        "preferred\n0 Node next:0\n1 Node next:2\n2 Node next:1\n",
        "broken B08 1 -\n",
    ),
    (
        BOX_COUNT_TWO,
        NO_CRITERIA,
        "preferred\n0 Box\n",
        "broken B09 0 Box\n",
    ),
    (
        SHARE,
        NO_CRITERIA,
        "preferred\n0 Rack cards:1,2\n1 Card driver:2\n2 Card driver:7\n",
        "broken B04 2 driver\n",
    ),
    (RACK, NO_CRITERIA, RACK_THREE_BIG, "broken B10 0 load\n"),
    (
        CARD_RULES,
        NO_CRITERIA,
        "preferred\n0 Rack cards:1,2\n1 Card power=8\n2 Card power=3\n",
        "broken B10 1 weak\n",
    ),
    (RACK, STRONG_20, RACK_SMALL_BIG, "broken B11 0 strong\n"),
    (
        RACK,
        FEW_STRONG_SMALL,
        RACK_THREE_BIG,
        "broken B10 0 load\n",
    ),
    (RACK, FEW_STRONG_SMALL, RACK_SMALL_BIG, "broken B11 0 few\n"),
    (
        INVERSE,
        NO_CRITERIA,
        INVERSE_NOT_LINKED_BACK,
        "broken B12 0 cards\n",
    ),
    (
        MATES,
        NO_CRITERIA,
        "preferred\n0 Node mate:1\n1 Node mate:1\n",
        "broken B12 0 mate\n",
    ),
];

pub(super) const SATISFIED: [Told; 10] = [
    (TWO_PORTS, NO_CRITERIA, TWO_PORTS_ONE_CARD, "satisfied\n"),
    (
        BOX_WIDTH_3,
        WIDEST,
        "preferred\n0 Box width=2\n",
        "satisfied\nw=2\n",
    ),
    (SHARE, NO_CRITERIA, SHARE_ONE_DRIVER, "satisfied\n"),
    (
        NODE_USE,
        NO_CRITERIA,
        "preferred\n0 Node next:0\n",
        "satisfied\n",
    ),
    (RACK, CHEAPEST, RACK_BIG_BIG, "satisfied\ncost=86\n"),
    (
        RACK,
        EVERY_NUMBER,
        RACK_SMALL_BIG,
        "satisfied\ncount=2\ncount_of=1\nsum=17\ntotal=78\nnumber=2\nplus=53\nminus=43\n\
            times=-3\n",
    ),
    (TRUTHS, NO_CRITERIA, TRUTHS_ANSWER, "satisfied\n"),
    (
        RACK,
        STRONG_20_CHEAPEST,
        RACK_BIG_BIG,
        "satisfied\ncost=86\n",
    ),
    (
        SERVER,
        SERVER_ORDER,
        SERVER_ANSWER,
        "satisfied\ncost=1780\nram=224\ncontrollers=1\n",
    ),
    (
        INVERSE,
        MOST_CARDS,
        INVERSE_TWO_CARDS,
        "satisfied\ncards=2\n",
    ),
];

/// Files of a check of which the model or the order is refused.
pub(super) const REFUSED_FIRST: [Told; 1] = [(BOX, "{", "", "refused order F02 /\n")];
