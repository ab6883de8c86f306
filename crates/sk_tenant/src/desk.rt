//! A desk: an updater of each tenant's hub, and how many items it keeps for a tenant at most.
ghost use Rattle.std.specs.Prelude.{◌≡◌, ◌↔◌, ℕ, ◌<◌, ◌≤◌, true, false, Some, length, slice_get, All, IfSome, IfNone, Contains};
ghost use Rattle.sk_model.specs.Limits.{most_kept};
ghost use Rattle.sk_model.specs.Width.{IsItem};
ghost use Rattle.sk_hub.specs.Updaters.{kept_of};
ghost use Rattle.sk_tenant.specs.Names.{place_of};
ghost use Rattle.sk_tenant.specs.Calls.{Adds, Insists, Asks, Helps, InsistsOnItem, IsFiltered, OwesAdd, OwesInsist, OwesAsk, OwesHelp};
ghost use Rattle.sk_tenant.specs.Desks.{IsDone, IsDesk};

use crate::answers::Add;
use crate::names::Names;
use crate::sketch::TenantTheta;
use sk_compose::Composable;
use sk_feed::insist;
use sk_hub::{Help, Update, Updater};
use sk_model::OutOfMemory;
use std::marker::Model;
use std::sync::Wait;

/// One updater of each tenant's hub. Tenants are named by their places, from 0.
#[derive(Drop)]
pub struct Desk {
    pub(crate) names: Names,
    // which of the desks it is
    pub(crate) number: u32,
    pub(crate) quota: u64,
    // each at the place of its tenant
    pub(crate) updaters: Vec<Updater<TenantTheta>>,
}

impl Model for Desk {
    ghost use Rattle.sk_tenant.specs.Desks.{DeskState, IsDesk};

    ghost Value = { DeskState };

    ghost view = { λ d. record { names = d.names; number = d.number; quota = d.quota; updaters = d.updaters.items } };

    ghost invariant = { λ d. IsDesk (record { names = d.names; number = d.number; quota = d.quota; updaters = d.updaters.items }) };
}

impl Desk {
    /// The place of the tenant with this name.
    #[inline(always)]
    pub fn place(&self, name: &[u8]) -> Option<u32>
        ensures value { result ≡ place_of self.now.names name.now }
        ensures found { IfSome result (λ t. slice_get self.now.names t ≡ Some name.now) }
        ensures none { IfNone result (¬ Contains self.now.names name.now) }
        ensures tenants { IfSome result (λ t. t < length self.now.updaters) }
    {
        self.names.place(name)
    }

    /// The names of the tenants, in order.
    #[inline(always)]
    pub fn names(&self) -> &Names
        ensures value { result.now ≡ self.now.names }
        ensures tenants { length result.now ≡ length self.now.updaters }
    {
        &self.names
    }

    /// Offers an item, from 1 to 2^63 - 1, for the tenant at place t. Another tenant's items and hub change no answer.
    pub fn add(&mut self, t: u32, item: u64) -> Add
        requires place { t < length self.old.updaters }
        requires item { IsItem item }
        ensures done { IsDone self.old t (Adds item result) self.new }
        ensures over { (u : _) → slice_get self.old.updaters t ≡ Some u → (result ≡ Add.Over) ↔ (length (kept_of u) ≡ self.old.quota) }
    {
        let quota = self.quota;
        add_to(&mut self.updaters[t as usize], quota, item)
    }

    /// Offers an item as `add` does, until it is taken, and helps whenever the updater is busy, and once more if it is
    /// eager. It returns false at the quota, and waits while another seat of the hub propagates.
    #[inline(always)]
    pub fn insist<R: Wait>(&mut self, rt: &R, t: u32, item: u64) -> bool
        requires place { t < length self.old.updaters }
        requires item { IsItem item }
        ensures done { IsDone self.old t (Insists item result) self.new }
        ensures over { (u : _) → slice_get self.old.updaters t ≡ Some u → (result ≡ false) ↔ (length (kept_of u) ≡ self.old.quota) }
    {
        let quota = self.quota;
        insist_with(rt, &mut self.updaters[t as usize], quota, item)
    }

    /// Whether an item, below the quota, is filtered: `insist` would take it without a change.
    #[inline(always)]
    pub fn filters(&self, t: u32, item: u64) -> bool
        requires place { t < length self.now.updaters }
        requires item { IsItem item }
        ensures done { result ≡ true → IsDone self.now t (Insists item true) self.now }
        ensures exact { (u : _) → slice_get self.now.updaters t ≡ Some u → (result ≡ true) ↔ IsFiltered self.now.quota u item }
    {
        does_filter(&self.updaters[t as usize], self.quota, item)
    }

    /// One load of the published word of the tenant at place t.
    pub fn ask(&mut self, t: u32) -> u64
        requires place { t < length self.old.updaters }
        ensures done { IsDone self.old t (Asks result) self.new }
    {
        ask_of(&mut self.updaters[t as usize])
    }

    /// Serves each updater of the hub of the tenant at place t once, unless another seat of it propagates. It waits in a
    /// merge only, and never runs out of memory.
    pub fn help<R: Wait>(&mut self, rt: &R, t: u32) -> Help
        requires place { t < length self.old.updaters }
        ensures done { IsDone self.old t (Helps result) self.new }
    {
        help_with(rt, &mut self.updaters[t as usize])
    }

    /// Its updaters, each at the place of its tenant.
    pub(crate) fn into_updaters(self) -> Vec<Updater<TenantTheta>>
        ensures updaters { result.items ≡ self.updaters }
        ensures numbers { All (λ u. u.number ≡ self.number) self.updaters }
    {
        self.updaters
    }
}

// Offers an item to an updater, below the quota.
fn add_to(updater: &mut Updater<TenantTheta>, quota: u64, item: u64) -> Add
    requires within { length (kept_of updater.old) ≤ quota }
    requires most { quota ≤ most_kept }
    requires item { IsItem item }
    ensures { OwesAdd quota updater.old item result updater.new }
{
    if updater.taken() == quota {
        return Add::Over;
    }
    // It shows the proof which list the hint is of.
    let _hint = updater.hint();
    match updater.update(item) {
        Update::Filtered => Add::Filtered,
        Update::Kept | Update::Handed => Add::Kept,
        Update::Busy => Add::Busy,
    }
}

// Offers an item to an updater until it is taken, below the quota. Most items are filtered, and then no call is made.
#[inline(always)]
fn insist_with<R: Wait>(rt: &R, updater: &mut Updater<TenantTheta>, quota: u64, item: u64) -> bool
    requires within { length (kept_of updater.old) ≤ quota }
    requires most { quota ≤ most_kept }
    requires item { IsItem item }
    ensures { OwesInsist quota updater.old item result updater.new }
{
    if updater.taken() == quota {
        return false;
    }
    if !does_filter(updater, quota, item) {
        insist_on(rt, updater, item);
    }
    true
}

// Whether an updater filters an item, below the quota.
#[inline(always)]
fn does_filter(updater: &Updater<TenantTheta>, quota: u64, item: u64) -> bool
    requires within { length (kept_of updater.now) ≤ quota }
    requires item { IsItem item }
    ensures owes { result ≡ true → OwesInsist quota updater.now item true updater.now }
    ensures exact { (result ≡ true) ↔ IsFiltered quota updater.now item }
{
    updater.taken() != quota && !TenantTheta::keeps(updater.hint(), item)
}

// Offers an item to an updater until it is taken. The merges of its sketch take no memory.
#[cold]
#[inline(never)]
fn insist_on<R: Wait>(rt: &R, updater: &mut Updater<TenantTheta>, item: u64)
    requires item { IsItem item }
    requires room { length (kept_of updater.old) < most_kept }
    ensures { InsistsOnItem updater.old item updater.new }
{
    match insist(rt, updater, item) {
        Ok(()) => {}
        Err(OutOfMemory) => unreachable!(),
    }
}

// Asks an updater.
fn ask_of(updater: &mut Updater<TenantTheta>) -> u64
    ensures { OwesAsk updater.old result updater.new }
{
    updater.ask()
}

// Lets an updater propagate once.
fn help_with<R: Wait>(rt: &R, updater: &mut Updater<TenantTheta>) -> Help
    ensures { OwesHelp updater.old result updater.new }
{
    updater.help(rt)
}
