//! What follows from the definitions alone: that tenants are apart, and what their last words are of.
ghost use Rattle.std.specs.Prelude.{◌≡◌, ◌≢◌, ℕ, ◌<◌, ◌≤◌, List, [], ◌∷◌, ◌++◌, length, flat_map, slice_index_or};
ghost use Rattle.std.specs.List.{range_with_len};
ghost use Rattle.sk_model.specs.Sketch.{packed_of};
ghost use Rattle.sk_model.specs.Width.{AreItems};
ghost use Rattle.sk_theta.specs.Sizes.{Sizes};
ghost use Rattle.sk_hub.specs.Updaters.{UpdaterState, kept_of};
ghost use Rattle.sk_tenant.specs.Calls.{Call, Lone, TakesItems, items_taken};
ghost use Rattle.sk_tenant.specs.Desks.{DeskState, IsDone, AreDone, IsSameDesk, calls_for};
ghost use Rattle.sk_tenant.specs.Hosts.{TenantsState, IsDeskOf, HasTakenInDesk, AreAskedFor, WasUsed, WasFed, HasFinished};

/// Calls on a desk, one after another.
pub fn calls_add_up()
    ensures none { (d : DeskState) → AreDone d [] d }
    ensures one_more { (d e d' : DeskState) (calls : List (ℕ × Call)) (t : ℕ) (call : Call)
        → AreDone d calls e → IsDone e t call d' → AreDone d (calls ++ (t, call) ∷ []) d' }
    ensures all { (d e d' : DeskState) (calls more : List (ℕ × Call)) → AreDone d calls e → AreDone e more d' → AreDone d (calls ++ more) d' }
{}

/// The calls for one tenant, taken out of those on a desk, are those of one updater of a hub of its own. A call for
/// another tenant changes nothing of its updater.
pub fn tenants_are_apart()
    ensures lone { (d d' : DeskState) (calls : List (ℕ × Call)) (t : ℕ) (u : UpdaterState) → AreDone d calls d' → t < length d.updaters
        → Lone d.quota (slice_index_or d.updaters t u) (calls_for t calls) (slice_index_or d'.updaters t u) }
    ensures others { (d d' : DeskState) (t other : ℕ) (call : Call) (u : UpdaterState) → IsDone d other call d' → other ≢ t
        → slice_index_or d'.updaters t u ≡ slice_index_or d.updaters t u }
{}

/// After calls a desk is the same, and of the same tenants.
pub fn a_desk_stays_of_its_tenants()
    ensures same { (d d' : DeskState) (calls : List (ℕ × Call)) → AreDone d calls d' → IsSameDesk d d' }
    ensures tenants { (hosts : TenantsState) (d d' : DeskState) (calls : List (ℕ × Call)) → AreDone d calls d' → IsDeskOf hosts d → IsDeskOf hosts d' }
{}

/// What an updater took by calls, and that it never keeps more than its quota.
pub fn lone_calls_take_items()
    ensures taken { (quota : ℕ) (u u' : UpdaterState) (calls : List Call) → Lone quota u calls u' → TakesItems u (items_taken calls) u' }
    ensures items { (quota : ℕ) (u u' : UpdaterState) (calls : List Call) → Lone quota u calls u' → AreItems (items_taken calls) }
    ensures few { (quota : ℕ) (u u' : UpdaterState) (calls : List Call) → Lone quota u calls u'
        → length (kept_of u) ≤ quota → length (kept_of u') ≤ quota }
{}

/// Once each updater of a tenant's hub is drained, the tenant's word is that of all they kept, and one thread's over
/// all items that they took.
pub fn the_last_word_is_of_all_that_was_fed()
    ensures kept { (hosts hosts' : TenantsState) (t word : ℕ) (last : ℕ → UpdaterState)
        → ((i : ℕ) → i < hosts.n → HasFinished hosts t i (last i)) → AreAskedFor hosts t word hosts'
        → word ≡ packed_of hosts.k (flat_map (λ i. kept_of (last i)) (range_with_len 0 hosts.n)) }
    ensures fed { (hosts hosts' : TenantsState) (t word : ℕ) (items : ℕ → List ℕ)
        → ((i : ℕ) → i < hosts.n → WasFed hosts t i (items i)) → AreAskedFor hosts t word hosts'
        → word ≡ packed_of hosts.k (flat_map items (range_with_len 0 hosts.n)) }
{}

/// Once all desks are drained, in whatever order, a tenant's word is one thread's over the items of all calls for it
/// that took one.
pub fn the_last_word_is_of_all_calls()
    ensures { (opened hosts hosts' : TenantsState) (shape : Sizes) (quota t word : ℕ) (calls : ℕ → List (ℕ × Call))
        → shape.k ≡ hosts.k → ((i : ℕ) → i < hosts.n → WasUsed opened shape quota hosts i (calls i)) → AreAskedFor hosts t word hosts'
        → word ≡ packed_of hosts.k (flat_map (λ i. items_taken (calls_for t (calls i))) (range_with_len 0 hosts.n)) }
{}
