//! The first names of files that stand twice, and the first that no type has.
use super::model;
use crate::Format::First;
use crate::Part::{At, Key};
use crate::Test::Known;
use crate::{Kind, Names, Part, first_failing, first_twice};
use prod_model::Items;
use serde_json::Value;
use std::alloc::{AllocError, Global};
use std::test::Fail;

/// Types, further members, and where the first name stands that stood before.
const TWICE: [(&str, &str, Option<&[Part]>); 8] = [
    (
        r#"{"name":"A","attributes":[{"name":"x","range":[0,1]}]},{"name":"B","attributes":[{"name":"x","range":[0,1]}]}"#,
        "",
        None,
    ),
    // a port after an attribute
    (
        r#"{"name":"A","attributes":[{"name":"x","range":[0,1]}],"ports":[{"name":"y"},{"name":"x"}]}"#,
        "",
        Some(&[Key(3), At(0), Key(11), At(1), Key(8)]),
    ),
    // the later of two types, and what stands in a type before it
    (
        r#"{"name":"A"},{"name":"B"},{"name":"A"}"#,
        "",
        Some(&[Key(3), At(2), Key(8)]),
    ),
    (
        r#"{"name":"A"},{"name":"B","attributes":[{"name":"w","words":["x","y","x"]}]},{"name":"A"}"#,
        "",
        Some(&[Key(3), At(1), Key(10), At(0), Key(13), At(2)]),
    ),
    (
        r#"{"name":"A"},{"name":"A","attributes":[{"name":"w","words":["x","y","x"]}]}"#,
        "",
        Some(&[Key(3), At(1), Key(8)]),
    ),
    // the third of three
    (
        r#"{"name":"A"}"#,
        r#","rules":[{"name":"r"},{"name":"s"},{"name":"s"},{"name":"r"}]"#,
        Some(&[Key(5), At(2), Key(8)]),
    ),
    (
        r#"{"name":"A"}"#,
        r#","bounds":[{"type":"A"},{"type":"A"}],"rules":[{"name":"r"},{"name":"r"}]"#,
        Some(&[Key(4), At(1), Key(17)]),
    ),
    // a rule may have the name of a type
    (r#"{"name":"A"}"#, r#","rules":[{"name":"A"}]"#, None),
];

#[test]
fn finds_the_first_name_that_stands_twice(rt: HostRuntime) -> Result<(), Fail> {
    for (types, more, place) in TWICE {
        let value = model(rt.alloc(), 1, types, more)?;
        let found = first_twice(rt.alloc(), First, Kind::Model, &value)?;
        assert_eq!(rt;
            found.as_ref().map(|f| f.as_slice()),
            place,
            "in {types} {more}"
        );
    }
    Ok(())
}

/// Types, and where the first name stands that no type has. The types are called `Rack` and `Card`.
const NAMED: [(&str, Option<&[Part]>); 3] = [
    (r#"{"name":"Rack"},{"name":"Card","parent":"Rack"}"#, None),
    (
        r#"{"name":"Rack","ports":[{"name":"p","target":"Cart"}]},{"name":"Card"}"#,
        Some(&[Key(3), At(0), Key(11), At(0), Key(15)]),
    ),
    (
        r#"{"name":"Rack"},{"name":"Card","parent":"rack"}"#,
        Some(&[Key(3), At(1), Key(9)]),
    ),
];

#[test]
fn finds_the_first_unknown_type(rt: HostRuntime) -> Result<(), Fail> {
    let mut names = Names::new(rt.alloc());
    names.insert(b"Rack")?;
    names.insert(b"Card")?;
    for (types, place) in NAMED {
        let value = model(rt.alloc(), 1, types, "")?;
        let found = first_unknown(rt.alloc(), &names, &value)?;
        assert_eq!(rt; found.as_ref().map(|f| f.as_slice()), place, "in {types}");
    }
    Ok(())
}

fn first_unknown(
    alloc: Global,
    names: &Names<'_>,
    value: &Value,
) -> Result<Option<Items<Part>>, AllocError> {
    first_failing(alloc, &Known(names), First, Kind::Model, value)
}
