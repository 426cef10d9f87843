use super::*;
use std::test::Fail;

/// An instance by its type, its values and the links of its ports.
type Row<'a> = (u32, &'a [i64], &'a [&'a [u32]]);

fn instance(alloc: Global, (kind, values, ports): Row<'_>) -> Result<Instance, AllocError> {
    let mut links = Items::new(alloc);
    for port in ports {
        links.push(Items::from_slice(alloc, port)?)?;
    }
    Ok(Instance {
        kind,
        values: Items::from_slice(alloc, values)?,
        links,
    })
}

fn configuration(alloc: Global, rows: &[Row<'_>]) -> Result<Configuration, AllocError> {
    let mut list = Items::new(alloc);
    for row in rows {
        list.push(instance(alloc, *row)?)?;
    }
    Ok(Configuration::from_list(list))
}

/// Instances of one type without values, by the links of their ports.
fn linked(alloc: Global, instances: &[&[&[u32]]]) -> Result<Configuration, AllocError> {
    let mut list = Items::new(alloc);
    for ports in instances {
        list.push(instance(alloc, (0, &[], ports))?)?;
    }
    Ok(Configuration::from_list(list))
}

#[test]
fn compares_keys_number_by_number(rt: HostRuntime) -> Result<(), Fail> {
    let one: &[Row<'_>] = &[(1, &[4], &[])];
    let rows: [(&str, &[Row<'_>], &[Row<'_>], Ordering); 9] = [
        ("both are empty", &[], &[], Ordering::Equal),
        ("the empty one is a prefix", &[], one, Ordering::Less),
        (
            "a proper prefix",
            one,
            &[(1, &[4], &[]), (0, &[], &[])],
            Ordering::Less,
        ),
        (
            "types come before values",
            &[(2, &[0], &[])],
            &[(1, &[9], &[])],
            Ordering::Greater,
        ),
        (
            "values have signs",
            &[(1, &[-5], &[])],
            &[(1, &[2], &[])],
            Ordering::Less,
        ),
        (
            "links differ",
            &[(1, &[4], &[&[1, 2]])],
            &[(1, &[4], &[&[1, 3]])],
            Ordering::Less,
        ),
        (
            "fewer links come first",
            &[(1, &[4], &[&[7]])],
            &[(1, &[4], &[&[1, 2]])],
            Ordering::Less,
        ),
        (
            "links of a later port",
            &[(1, &[], &[&[3], &[5]])],
            &[(1, &[], &[&[3], &[4]])],
            Ordering::Greater,
        ),
        (
            "two shapes of one key",
            &[(1, &[7], &[])],
            &[(1, &[], &[]), (7, &[], &[])],
            Ordering::Equal,
        ),
    ];
    for (what, x, y, order) in rows {
        let x = configuration(rt.alloc(), x)?;
        let y = configuration(rt.alloc(), y)?;
        assert!(rt; x.key_cmp(&y) == order, "{what}");
        assert!(rt;
            y.key_cmp(&x) == order.reverse(),
            "{what}, the other way round"
        );
    }
    Ok(())
}

#[test]
fn numbers_by_first_mentions(rt: HostRuntime) -> Result<(), Fail> {
    let rows: [(&str, &[&[&[u32]]], bool); 13] = [
        ("no instance", &[], true),
        ("the root alone", &[&[]], true),
        ("in turn", &[&[&[1], &[2]], &[&[3]], &[], &[]], true),
        (
            "one that is mentioned twice",
            &[&[&[1, 2]], &[&[3]], &[&[3]], &[]],
            true,
        ),
        (
            "a link to itself after its mention",
            &[&[&[1]], &[&[1]]],
            true,
        ),
        ("links to the root", &[&[&[0, 1]], &[&[0]]], true),
        ("links to no instance", &[&[&[9, 1]], &[&[2]]], true),
        ("first mentions descend", &[&[&[2], &[1]], &[], &[]], false),
        (
            "one mentioned first by a higher one",
            &[&[&[1]], &[], &[], &[&[2, 3]]],
            false,
        ),
        (
            "one mentioned first by itself",
            &[&[&[1]], &[], &[&[2]]],
            false,
        ),
        ("one that nobody mentions", &[&[&[1]], &[], &[]], false),
        (
            "the last that nobody mentions",
            &[&[&[1, 2]], &[&[2]], &[], &[]],
            false,
        ),
        (
            "one left out at first",
            &[&[&[1, 3, 2]], &[], &[], &[]],
            false,
        ),
    ];
    for (what, instances, numbered) in rows {
        let c = linked(rt.alloc(), instances)?;
        assert!(rt; c.is_numbered() == numbered, "{what}");
    }
    Ok(())
}

#[test]
fn copies_all_of_it(rt: HostRuntime) -> Result<(), Fail> {
    let c = configuration(
        rt.alloc(),
        &[(3, &[-1, 8], &[&[1], &[]]), (5, &[], &[&[0, 1]])],
    )?;
    let copy = c.copy(rt.alloc())?;
    assert_eq!(rt; copy.len(), 2);
    assert!(rt; copy.key_cmp(&c) == Ordering::Equal);
    assert!(rt; copy.same(&c));
    let second = copy.get(1);
    assert_eq!(rt; second.kind, 5);
    assert_eq!(rt; second.links.len(), 1);
    Ok(())
}
