//! Two tenants, whose items come to two desks.
ghost use Rattle.std.specs.Prelude.{◌≡◌, ◌≢◌, ◌↔◌, ℕ, ◌<◌, ◌≤◌, ◌++◌, length, slice_get, slice_index_or, Contains, IfOk, Some, true, false};
ghost use Rattle.sk_model.specs.Limits.{most_kept};
ghost use Rattle.sk_model.specs.Sketch.{packed_of};
ghost use Rattle.sk_model.specs.Width.{IsItem};
ghost use Rattle.sk_hub.specs.Updaters.{kept_of};
ghost use Rattle.sk_tenant.specs.Calls.{theta_keeps, theta_word};
ghost use Rattle.sk_tenant.specs.Desks.{AreDone};
ghost use Rattle.sk_tenant.specs.Names.{HasNoSpace};
ghost use Rattle.uses.specs.Adds.{AreLines, adds_of, taken_for};

use sk_model::OutOfMemory;
use sk_tenant::laws::{a_desk_stays_of_its_tenants, calls_add_up, the_last_word_is_of_all_calls};
use sk_tenant::{Add, Desk, Names, Opening, TenantStop, Tenants};
use sk_theta::Shape;
use std::alloc::Global;
use std::sync::Wait;

/// What became of each line at both desks, and the last word of each tenant.
#[derive(Drop)]
pub struct Answered {
    pub first: Vec<Add>,
    pub second: Vec<Add>,
    pub words: (u64, u64),
}

/// Adds the lines of two desks, each of a tenant's place and an item, drains the second desk and
/// then the first, and asks for each tenant's word.
pub fn count_two_tenants<R: Wait>(
    rt: &R,
    alloc: Global,
    names: Vec<String>,
    shape: &Shape,
    quota: u64,
    first: &[(u32, u64)],
    second: &[(u32, u64)],
) -> Result<Answered, TenantStop>
    requires tenants { length names.items ≡ 2 }
    requires desks { shape.now.n ≡ 2 }
    requires some { 1 ≤ quota }
    requires most { quota ≤ most_kept }
    requires first_lines { AreLines 2 first.now }
    requires second_lines { AreLines 2 second.now }
    ensures first { IfOk result (λ answered. answered.words.0 ≡ packed_of shape.now.k
        (taken_for 0 first.now answered.first.items
        ++ taken_for 0 second.now answered.second.items)) }
    ensures second { IfOk result (λ answered. answered.words.1 ≡ packed_of shape.now.k
        (taken_for 1 first.now answered.first.items
        ++ taken_for 1 second.now answered.second.items)) }
{
    let Opening { mut hosts, desks } = Tenants::open(alloc, names, shape, quota)?;
    let mut desks = desks;
    let (Some(mut last), Some(mut desk)) = (desks.pop(), desks.pop()) else {
        unreachable!()
    };
    let first = add_each(alloc, &mut desk, first)?;
    let second = add_each(alloc, &mut last, second)?;
    // These show the proof that the desks are still those of the tenants.
    a_desk_stays_of_its_tenants();
    hosts.drain(rt, last);
    hosts.drain(rt, desk);
    let words = (hosts.ask(0), hosts.ask(1));
    // It shows that these words are of all that was taken.
    the_last_word_is_of_all_calls();
    Ok(Answered {
        first,
        second,
        words,
    })
}

// Adds each line once, and returns what became of each.
fn add_each(alloc: Global, desk: &mut Desk, lines: &[(u32, u64)]) -> Result<Vec<Add>, OutOfMemory>
    requires lines { AreLines (length desk.old.updaters) lines.now }
    ensures { IfOk result (λ answers. AreDone desk.old (adds_of lines.now answers.items) desk.new) }
{
    // It shows the proof how calls add up.
    calls_add_up();
    let mut answers = Vec::with_capacity(alloc, lines.len())?;
    'line: for line in lines {
        let (t, item) = *line;
        answers.push(desk.add(t, item))?;
    }
    Ok(answers)
}

/// Helps the hub of the tenant at place t once, unless another seat of it does, and asks for its word: that of what the
/// updater has seen published. Nothing is kept by it, and other tenants see nothing of it.
pub fn help_and_ask<R: Wait>(rt: &R, desk: &mut Desk, t: u32) -> u64
    requires place { t < length desk.old.updaters }
    ensures word { (d : _) → let u = slice_index_or desk.new.updaters t d in result ≡ theta_word u.view.numbers u.view.seen }
    ensures kept { (d : _) → kept_of (slice_index_or desk.new.updaters t d) ≡ kept_of (slice_index_or desk.old.updaters t d) }
    ensures others { (s : ℕ) (d : _) → t ≢ s → slice_index_or desk.new.updaters s d ≡ slice_index_or desk.old.updaters s d }
{
    desk.help(rt, t);
    desk.ask(t)
}

/// Whether a tenant has this name, which has no space.
pub fn has_plain_name(names: &Names, name: &[u8]) -> bool
    requires plain { HasNoSpace name.now }
    ensures known { result ≡ true → Contains names.now name.now }
    ensures unknown { result ≡ false → ¬ Contains names.now name.now }
{
    let finder = names.finder(name.len());
    if finder.reaches(name, 0) {
        finder.place(name, 0).is_some()
    } else {
        has_short_name(names, name)
    }
}

// The same of a name of fewer than eight bytes: any other is reached.
fn has_short_name(names: &Names, name: &[u8]) -> bool
    requires short { length name.now < 8 }
    ensures known { result ≡ true → Contains names.now name.now }
    ensures unknown { result ≡ false → ¬ Contains names.now name.now }
{
    names.place(name).is_some()
}

/// Offers an item for the tenant at place t unless it is filtered, and returns whether it was offered: below the quota
/// exactly if the hint keeps it.
pub fn offer_if_kept<R: Wait>(rt: &R, desk: &mut Desk, t: u32, item: u64) -> bool
    requires place { t < length desk.old.updaters }
    requires item { IsItem item }
    ensures { (u : _) → slice_get desk.old.updaters t ≡ Some u → length (kept_of u) < desk.old.quota
        → (result ≡ true) ↔ (theta_keeps u.hint item ≡ true) }
{
    if desk.filters(t, item) {
        return false;
    }
    desk.insist(rt, t, item);
    true
}
