//! The largest product: 256 instances that link each other, and 1,000 rules about what they link.
use crate::satisfying::{answer_of, problem_of};
use answer_check::{Verdict, check};
use std::alloc::{AllocError, Global};
use std::fmt::Write;
use std::test::Fail;

/// Up to 256 nodes, each of which may link them all. The rules follow.
const MESHES: &str = "{\"format\":\"product-model 1\",\"root\":\"Node\",\"instances\":256,\
    \"types\":[{\"name\":\"Node\",\"ports\":[\
    {\"name\":\"next\",\"kind\":\"use\",\"target\":\"Node\",\"links\":[0,256]}]}],\"rules\":[";

/// Writes a truth about all or some linked nodes of all or some linked nodes, so many levels deep.
/// It holds, since each node links all of them.
fn write_nested(text: &mut String, depth: u32) -> Result<(), AllocError> {
    for level in 0..depth {
        let form = if level % 2 == 0 { "all" } else { "any" };
        write!(text, "[\"{form}\",\"next\",")?;
    }
    text.push_str("[\"kind\",\"Node\"]")?;
    for _ in 0..depth {
        text.push_str("]")?;
    }
    Ok(())
}

/// 999 rules that are true, five of them nested as deep as is allowed, and one that is false.
fn write_rules(text: &mut String) -> Result<(), AllocError> {
    for number in 0..999 {
        write!(
            text,
            "{{\"name\":\"rule{number}\",\"type\":\"Node\",\"holds\":"
        )?;
        write_nested(text, if number < 5 { 15 } else { 0 })?;
        text.push_str("},")?;
    }
    text.push_str("{\"name\":\"fails\",\"type\":\"Node\",\"holds\":[\"not\",")?;
    write_nested(text, 14)?;
    text.push_str("]}]}")
}

fn meshes(alloc: Global) -> Result<String, AllocError> {
    let mut text = String::from_str(alloc, MESHES)?;
    write_rules(&mut text)?;
    Ok(text)
}

/// One line of an answer: the node of that number, which links all 256.
fn write_node(text: &mut String, number: u32) -> Result<(), AllocError> {
    write!(text, "{number} Node next:0")?;
    for linked in 1..256 {
        write!(text, ",{linked}")?;
    }
    writeln!(text)
}

fn mesh(alloc: Global) -> Result<String, AllocError> {
    let mut text = String::from_str(alloc, "preferred\n")?;
    for number in 0..256 {
        write_node(&mut text, number)?;
    }
    Ok(text)
}

/// Each level of a nested rule has 256 times as many links to follow, if they are followed one by
/// one.
#[test]
fn checks_a_mesh(rt: HostRuntime) -> Result<(), Fail> {
    let alloc = rt.alloc();
    let problem = problem_of(alloc, &meshes(alloc)?)?;
    let answer = answer_of(alloc, &problem, &mesh(alloc)?)?;
    let want = Verdict::Broken {
        code: 10,
        instance: 0,
        item: 999,
    };
    let told = check(&problem, &answer);
    drop(answer);
    drop(problem);
    assert_eq!(rt; told, want);
    Ok(())
}
