//! Tenants: the quota of each alone, and their names.
ghost use Rattle.std.specs.Prelude.{◌≡◌, length, IfOk};

use super::expect;
use sk_model::OutOfMemory;
use sk_tenant::{Add, Desk, Opening, TenantStop, Tenants};
use sk_theta::{ITEM_END, Shape};
use std::alloc::Global;
use std::process::Abort;
use std::sync::Wait;
use std::test::Fail;
use uses::help_and_ask;

fn names_of(alloc: Global, texts: &[&str]) -> Result<Vec<String>, OutOfMemory>
    ensures { IfOk result (λ names. length names.items ≡ length texts.now) }
{
    let mut names = Vec::new(alloc);
    'text: for text in texts {
        names.push(String::from_str(alloc, text)?)?;
    }
    Ok(names)
}

fn add<R: Abort>(rt: &R, desk: &mut Desk, name: &[u8], item: u64) -> Add {
    assert!(rt; (1..ITEM_END).contains(&item));
    let Some(t) = desk.place(name) else {
        panic!(rt; "no tenant has this name");
    };
    desk.add(t, item)
}

// The word of a tenant, after help.
fn word<R: Abort + Wait>(rt: &R, desk: &mut Desk, name: &[u8]) -> u64 {
    let Some(t) = desk.place(name) else {
        panic!(rt; "no tenant has this name");
    };
    help_and_ask(rt, desk, t)
}

#[test]
fn one_tenant_is_helped_and_asked(rt: HostRuntime) -> Result<(), Fail> {
    let alloc = rt.alloc();
    let shape = Shape::new(8, 1, 1, 0, false)?;
    let Opening {
        hosts: _,
        mut desks,
    } = Tenants::open(alloc, names_of(alloc, &["a", "b"])?, &shape, 4)?;
    let desk = &mut desks[0];
    expect(&rt, add(&rt, desk, b"a", 5), Add::Kept);
    expect(&rt, word(&rt, desk, b"a"), 1);
    expect(&rt, word(&rt, desk, b"b"), 0);
    Ok(())
}

#[test]
fn a_quota_is_of_one_tenant_alone(rt: HostRuntime) -> Result<(), Fail> {
    let alloc = rt.alloc();
    let shape = Shape::new(8, 4, 1, 0, false)?;
    let Opening {
        hosts: _,
        mut desks,
    } = Tenants::open(alloc, names_of(alloc, &["a", "b"])?, &shape, 1)?;
    let desk = &mut desks[0];
    expect(&rt, add(&rt, desk, b"a", 5), Add::Kept);
    expect(&rt, add(&rt, desk, b"a", 6), Add::Over);
    expect(&rt, add(&rt, desk, b"b", 6), Add::Kept);
    expect(&rt, add(&rt, desk, b"b", 5), Add::Over);
    Ok(())
}

#[test]
fn a_name_twice_is_reported(rt: HostRuntime) -> Result<(), Fail> {
    let alloc = rt.alloc();
    let shape = Shape::new(8, 4, 1, 0, false)?;
    let Err(stop) = Tenants::open(alloc, names_of(alloc, &["a", "a"])?, &shape, 1) else {
        panic!(&rt; "two tenants have one name");
    };
    expect(&rt, stop, TenantStop::Twice(1));
    Ok(())
}

#[test]
fn names_are_found_whole(rt: HostRuntime) -> Result<(), Fail> {
    let alloc = rt.alloc();
    let shape = Shape::new(8, 4, 2, 0, false)?;
    let texts = ["customer-1", "customer-10", "customer", "c"];
    let Opening { hosts, desks: _ } = Tenants::open(alloc, names_of(alloc, &texts)?, &shape, 1)?;
    let names = hosts.names();
    expect(&rt, names.place(b"customer-1"), Some(0));
    expect(&rt, names.place(b"customer-10"), Some(1));
    expect(&rt, names.place(b"customer"), Some(2));
    expect(&rt, names.place(b"c"), Some(3));
    expect(&rt, names.place(b"customer-2"), None);
    expect(&rt, names.place(b"cust"), None);
    expect(&rt, names.place(b""), None);
    expect(&rt, names.place(b"c\xff"), None);
    Ok(())
}
