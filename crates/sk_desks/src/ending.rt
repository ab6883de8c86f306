// The end of a command over tenants: each tenant gives a line.
ghost use Rattle.std.specs.Prelude.{◌≡◌, ◌<◌, ◌++◌, ℕ, List, length, flat_map, codes, Some, slice_get, OnOk, IfOk};
ghost use Rattle.sk_model.specs.Limits.{IsFrom, least_k, most_k};
ghost use Rattle.sk_lines.specs.Fractions.{estimate_line};
ghost use Rattle.sk_desks.specs.Endings.{AreTheSame, HaveCounted, PutsLine};
ghost use Rattle.sk_desks.specs.Desks.{tenant_line};

use crate::plan::Plan;
use sk_lines::{ESTIMATE_LINE_LEN, put_estimate_line};
use sk_model::OutOfMemory;
use sk_tenant::{Names, Tenants};
use sk_theta::unpack;
use std::alloc::Global;

// The line of each tenant, in the order of the names.
pub(crate) fn text_of(
    alloc: Global,
    plan: &Plan,
    hosts: &mut Tenants,
) -> Result<Vec<u8>, OutOfMemory>
    requires k { IsFrom least_k most_k plan.now.k }
    requires counted { (lines : List (List ℕ)) × HaveCounted plan.now lines hosts.old }
    ensures text { IfOk result (λ text. (lines : List (List ℕ)) → HaveCounted plan.now lines hosts.old
        → text.items ≡ flat_map (tenant_line plan.now lines) hosts.old.names) }
{
    let mut text = Vec::new(alloc);
    'tenant: for t in 0..hosts.names().len() {
        put_line(&mut text, hosts, t, plan.k)?;
    }
    Ok(text)
}

// Puts the line of the tenant at place t after a text.
fn put_line(text: &mut Vec<u8>, hosts: &mut Tenants, t: u32, k: u32) -> Result<(), OutOfMemory>
    requires k { IsFrom least_k most_k k }
    requires place { t < length hosts.old.names }
    requires tenants { length hosts.old.hearts ≡ length hosts.old.names }
    ensures line { OnOk result (PutsLine k t hosts.old hosts.new text.old.items text.new.items) }
    ensures kept { (plan : Plan) (lines : List (List ℕ)) → HaveCounted plan lines hosts.old → HaveCounted plan lines hosts.new }
    ensures same { AreTheSame hosts.old hosts.new }
{
    put_name(text, hosts.names(), t)?;
    let (n, d) = unpack(hosts.ask(t), k).fraction(k);
    put_estimate(text, n, d)
}

// Puts the name at place t and a space after a text.
fn put_name(text: &mut Vec<u8>, names: &Names, t: u32) -> Result<(), OutOfMemory>
    requires place { t < length names.now }
    ensures { OnOk result ((name : List ℕ) × (slice_get names.now t ≡ Some name) × (text.new.items ≡ text.old.items ++ (name ++ codes " "))) }
{
    text.extend_from_slice(names.name(t))?;
    text.extend_from_slice(b" ")?;
    Ok(())
}

// Puts the line of an estimate after a text.
fn put_estimate(text: &mut Vec<u8>, n: u128, d: u64) -> Result<(), OutOfMemory>
    ensures { OnOk result (text.new.items ≡ text.old.items ++ estimate_line (n, d)) }
{
    let mut line = [0u8; ESTIMATE_LINE_LEN];
    let len = put_estimate_line(&mut line, n, d);
    text.extend_from_slice(&line[..len])?;
    Ok(())
}
