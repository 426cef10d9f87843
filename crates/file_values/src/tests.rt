//! The first places at which files written out fail a test.
mod names;

use crate::Format::{First, Second};
use crate::Part::{At, Key};
use crate::Test::{Forms, Kinds, Lengths, Limits};
use crate::{Fault, FaultCode, Kind, Part, Test, first_failing, first_misformed, write_place};
use prod_model::Items;
use serde_json::Value;
use std::alloc::Global;
use std::process::Abort;
use std::test::Fail;

/// A model file of this format, with these types and further members.
fn model(alloc: Global, format: u32, types: &str, more: &str) -> Result<Value, Fail> {
    let text = format!(in alloc;
        "{{\"format\":\"product-model {format}\",\"root\":\"Rack\",\"instances\":3,\"types\":[{types}]{more}}}"
    )?;
    Ok(Value::from_str(alloc, text.as_str())?)
}

/// The format's number, types, further members, and where the first value of another kind stands.
const OTHER_KINDS: [(u32, &str, &str, Option<&[Part]>); 16] = [
    (1, r#"{"name":"Rack"}"#, "", None),
    // a port of the first format has no inverse, and its members lack
    (
        1,
        r#"{"name":"Rack","ports":[{"name":"cards","kind":"part","target":"Card","links":[0,2],"inverse":"home"}]}"#,
        "",
        Some(&[Key(3), At(0), Key(11), At(0)]),
    ),
    (
        2,
        r#"{"name":"Rack","ports":[{"name":"cards","kind":"part","target":"Card","links":[0,2],"inverse":"home"}]}"#,
        "",
        None,
    ),
    (
        2,
        r#"{"name":"Rack","ports":[{"name":"cards","kind":"part","target":"Card","links":[0,2],"inverse":7}]}"#,
        "",
        Some(&[Key(3), At(0), Key(11), At(0), Key(22)]),
    ),
    (
        2,
        r#"{"name":"Rack","ports":[{"name":"cards","kind":"part","target":"Card"}]}"#,
        "",
        Some(&[Key(3), At(0), Key(11), At(0)]),
    ),
    // another text for a kind; the key order decides, not the order in the file
    (
        2,
        r#"{"ports":[{"links":[0],"kind":"parts","target":"Card","name":"cards"}],"name":7}"#,
        "",
        Some(&[Key(3), At(0), Key(8)]),
    ),
    (
        2,
        r#"{"ports":[{"links":[0],"kind":"parts","target":"Card","name":"cards"}],"name":"Rack"}"#,
        "",
        Some(&[Key(3), At(0), Key(11), At(0), Key(14)]),
    ),
    // a pair that is none stands at the pair
    (
        2,
        r#"{"ports":[{"links":[0,1.5],"kind":"part","target":"Card","name":"cards"}],"name":"Rack"}"#,
        "",
        Some(&[Key(3), At(0), Key(11), At(0), Key(16)]),
    ),
    // exactly one of two members that exclude each other
    (
        1,
        r#"{"name":"Rack","attributes":[{"name":"a","range":[0,1],"words":["x"]}]}"#,
        "",
        Some(&[Key(3), At(0), Key(10), At(0)]),
    ),
    (
        1,
        r#"{"name":"Rack","attributes":[{"name":"b","words":["x"]},{"name":"a"}]}"#,
        "",
        Some(&[Key(3), At(0), Key(10), At(1)]),
    ),
    // no object, no list, no text
    (1, r#"7"#, "", Some(&[Key(3), At(0)])),
    (
        1,
        r#"{"name":"Rack","ports":{}}"#,
        "",
        Some(&[Key(3), At(0), Key(11)]),
    ),
    (
        1,
        r#"{"name":"Rack"}"#,
        r#","bounds":[{"type":1,"count":[0,1]}]"#,
        Some(&[Key(4), At(0), Key(17)]),
    ),
    // nothing inside an expression is tested
    (
        1,
        r#"{"name":"Rack"}"#,
        r#","rules":[{"name":"r","type":"Rack","holds":{"x":[1.5]}}]"#,
        None,
    ),
    // a member that isn't listed, at the whole document
    (1, r#"{"name":7}"#, r#","order":[]"#, Some(&[])),
    (3, r#"{"name":7}"#, "", Some(&[Key(0)])),
];

#[test]
fn finds_the_first_value_of_another_kind(rt: HostRuntime) -> Result<(), Fail> {
    for (number, types, more, place) in OTHER_KINDS {
        let value = model(rt.alloc(), number, types, more)?;
        let format = if number == 2 { Second } else { First };
        let found = first_failing(rt.alloc(), &Kinds, format, Kind::Model, &value)?;
        assert_eq!(rt;
            found.as_ref().map(|f| f.as_slice()),
            place,
            "in {types} {more}"
        );
    }
    Ok(())
}

/// Types, further members, and where the first value stands that fails the test.
const TESTED: [(Test<'static>, &str, &str, Option<&[Part]>); 13] = [
    (
        Lengths,
        r#"{"name":"Rack","attributes":[{"name":"a","words":[]}]}"#,
        "",
        Some(&[Key(3), At(0), Key(10), At(0), Key(13)]),
    ),
    (
        Lengths,
        r#"{"name":"Rack","attributes":[{"name":"a","words":["x"]}]}"#,
        "",
        None,
    ),
    (
        Forms,
        r#"{"name":"1Rack"}"#,
        "",
        Some(&[Key(3), At(0), Key(8)]),
    ),
    (
        Forms,
        r#"{"name":"Rack","parent":"a b"}"#,
        "",
        Some(&[Key(3), At(0), Key(9)]),
    ),
    (
        Forms,
        r#"{"name":"Rack","attributes":[{"name":"a","words":["x","2.5","y z"]}]}"#,
        "",
        Some(&[Key(3), At(0), Key(10), At(0), Key(13), At(2)]),
    ),
    (
        Forms,
        r#"{"name":"Rack","ports":[{"name":"p","kind":"part","target":"T","links":[0,1],"inverse":"1home"}]}"#,
        "",
        Some(&[Key(3), At(0), Key(11), At(0), Key(22)]),
    ),
    // low above high, at the pair; an end, at the number
    (
        Limits,
        r#"{"name":"Rack","attributes":[{"name":"a","range":[2,1]}]}"#,
        "",
        Some(&[Key(3), At(0), Key(10), At(0), Key(12)]),
    ),
    (
        Limits,
        r#"{"name":"Rack","attributes":[{"name":"a","range":[0,1000001]}]}"#,
        "",
        Some(&[Key(3), At(0), Key(10), At(0), Key(12), At(1)]),
    ),
    (
        Limits,
        r#"{"name":"Rack","ports":[{"name":"p","kind":"part","target":"T","links":[0,257]}]}"#,
        "",
        Some(&[Key(3), At(0), Key(11), At(0), Key(16), At(1)]),
    ),
    (
        Limits,
        r#"{"name":"Rack","ports":[{"name":"p","kind":"part","target":"T","links":[0,256]}]}"#,
        "",
        None,
    ),
    (
        Limits,
        r#"{"name":"Rack","ports":[{"name":"p","kind":"part","target":"T","links":[-1,-2]}]}"#,
        "",
        Some(&[Key(3), At(0), Key(11), At(0), Key(16)]),
    ),
    // `bounds` comes before `rules`, and after `types`
    (
        Forms,
        r#"{"name":"Rack"}"#,
        r#","rules":[{"name":"r r","type":"Rack","holds":1}],"bounds":[{"type":"","count":[0,1]}]"#,
        Some(&[Key(4), At(0), Key(17)]),
    ),
    (
        Limits,
        r#"{"name":"Rack"}"#,
        r#","bounds":[{"type":"Rack","count":[0,1]},{"type":"Rack","count":[-1,1]}]"#,
        Some(&[Key(4), At(1), Key(18), At(0)]),
    ),
];

#[test]
fn finds_the_first_length_form_and_number(rt: HostRuntime) -> Result<(), Fail> {
    for (test, types, more, place) in TESTED {
        let value = model(rt.alloc(), 2, types, more)?;
        let found = first_failing(rt.alloc(), &test, Second, Kind::Model, &value)?;
        assert_eq!(rt;
            found.as_ref().map(|f| f.as_slice()),
            place,
            "in {types} {more}"
        );
    }
    Ok(())
}

/// Expressions, and the first place at which one has none of the forms.
const EXPRESSIONS: [(&str, Option<&[Part]>); 14] = [
    ("7", None),
    (
        r#"["all","cards",["any","driver",["is","bus","sas"]]]"#,
        None,
    ),
    (r#"["count","cards","Big"]"#, None),
    ("1.5", Some(&[])),
    (r#""yes""#, Some(&[])),
    ("[]", Some(&[])),
    (r#"["mod",7,2]"#, Some(&[])),
    (r#"["<",1]"#, Some(&[])),
    (r#"["and"]"#, Some(&[])),
    (r#"["<",1.5,2]"#, Some(&[At(1)])),
    (r#"["<",["attr",7],1]"#, Some(&[At(1), At(1)])),
    (r#"["<",["*",["attr","width"],2],5]"#, Some(&[At(1), At(1)])),
    (
        r#"["and",["<",1,["attr","a"]],["<",["+"],["attr"]]]"#,
        Some(&[At(2), At(1)]),
    ),
    (r#"["is",7,8]"#, Some(&[At(1)])),
];

#[test]
fn finds_the_first_misformed_part(rt: HostRuntime) -> Result<(), Fail> {
    for (text, place) in EXPRESSIONS {
        let value = Value::from_str(rt.alloc(), text)?;
        let found = first_misformed(rt.alloc(), &value)?;
        assert_eq!(rt; found.as_ref().map(|f| f.as_slice()), place, "in {text}");
    }
    Ok(())
}

/// A list of so many types, each with so many attributes.
fn types(alloc: Global, count: usize, attributes: usize) -> Result<String, Fail> {
    let mut text = String::new(alloc);
    for index in 0..count {
        text.push_str(if index > 0 { "," } else { "" })?;
        text.push_str(r#"{"name":"Rack","attributes":["#)?;
        for place in 0..attributes {
            text.push_str(if place > 0 { "," } else { "" })?;
            text.push_str(r#"{"name":"a","range":[0,1]}"#)?;
        }
        text.push_str("]}")?;
    }
    Ok(text)
}

/// So many types with so many attributes each, and whether that isn't too many.
const COUNTS: [(usize, usize, bool); 4] = [
    (128, 2, true),
    (129, 0, false),
    (128, 3, false),
    (1, 257, false),
];

#[test]
fn counts_types_and_declarations(rt: HostRuntime) -> Result<(), Fail> {
    for (count, attributes, few) in COUNTS {
        let types = types(rt.alloc(), count, attributes)?;
        let value = model(rt.alloc(), 1, types.as_str(), "")?;
        let found = first_failing(rt.alloc(), &Lengths, First, Kind::Model, &value)?;
        assert_eq!(rt; found.is_none(), few, "with {count} types of {attributes}");
    }
    Ok(())
}

#[test]
fn writes_places(rt: HostRuntime) -> Result<(), Fail> {
    let whole = write_place(rt.alloc(), &[])?;
    assert_eq!(rt; whole.as_slice(), b"/".as_slice());
    let inverse = write_place(rt.alloc(), &[Key(3), At(0), Key(11), At(12), Key(22)])?;
    assert_eq!(rt; inverse.as_slice(), b"/types/0/ports/12/inverse".as_slice());
    let last = write_place(rt.alloc(), &[At(4_294_967_295)])?;
    assert_eq!(rt; last.as_slice(), b"/4294967295".as_slice());
    Ok(())
}

/// Faults in their order: by number, and then by place.
const FAULTS: [(FaultCode, &[Part]); 4] = [
    (FaultCode::WrongForm, &[Key(3), At(1)]),
    (FaultCode::Twice, &[]),
    (FaultCode::Twice, &[Key(3), At(1)]),
    (FaultCode::Twice, &[Key(3), At(1), Key(8)]),
];

#[test]
fn orders_faults(rt: HostRuntime) -> Result<(), Fail> {
    for (i, (code, place)) in FAULTS.iter().enumerate() {
        for (j, (other, elsewhere)) in FAULTS.iter().enumerate() {
            let fault = Fault {
                code: *code,
                place: Items::from_slice(rt.alloc(), *place)?,
            };
            let second = Fault {
                code: *other,
                place: Items::from_slice(rt.alloc(), *elsewhere)?,
            };
            assert_eq!(rt; fault.is_before(&second), i < j, "at {i} and {j}");
        }
    }
    assert_eq!(rt; FaultCode::WrongInverse.number(), 17);
    Ok(())
}
