// What a layer above concludes of handles, by their clauses alone, for any kind of sketch.
ghost use Rattle.std.specs.Prelude.{◌≡◌, ◌≢◌, ◌⊎◌, ◌*◌, ℕ, ◌<◌, length, All, Contains, List, false, OnOk, IfOk};
ghost use Rattle.sk_model.specs.Entries.{Entry, entries_by};
ghost use Rattle.sk_model.specs.Missing.{Begins, LacksAtMost};
ghost use Rattle.sk_model.specs.Width.{IsItem};
ghost use Rattle.sk_model.specs.Limits.{most_kept};
ghost use Rattle.sk_machine.specs.Coarse.{IsEntry};
ghost use Rattle.sk_gate.specs.Views.{known_of, size_of};
ghost use Rattle.sk_hub.specs.Updaters.{handed_of, base_of, kept_of};

use super::*;

// A token that meets an updater's note lacks, of all that the updater kept, at most two buffers.
pub fn meet_and_ask<C: Composable>(token: &mut Token<C>, u: &mut Updater<C>) -> u64
    requires table { u.old.table ≡ token.old.table }
    requires known { Begins (known_of token.old.view u.old.number) (handed_of u.old) }
    requires size { (size_of token.old.view u.old.number ≡ 0) ⊎ (size_of token.old.view u.old.number ≡ u.old.size) }
    ensures lacks { LacksAtMost (kept_of u.old) (entries_by u.old.number token.new.view.seen) (2 * u.old.size) }
    ensures word { result ≡ C.packed_of token.new.view.numbers token.new.view.seen }
    ensures entries { All (IsEntry (length token.old.view.sizes)) token.new.view.seen }
    ensures known { known_of token.new.view u.old.number ≡ handed_of u.old }
    ensures size { size_of token.new.view u.old.number ≡ u.old.size }
    ensures kept { kept_of u.new ≡ kept_of u.old }
    ensures table { (u.new.table ≡ u.old.table) × (token.new.table ≡ token.old.table) }
{
    let _number = u.number();
    token.meet(u.note());
    token.ask()
}

// What a token has seen of an updater's items begins what that has handed over: the updater sees it after a note of the
// token.
pub fn give_note<C: Composable>(token: &mut Token<C>, u: &mut Updater<C>)
    requires table { u.old.table ≡ token.old.table }
    ensures own { Begins (entries_by u.old.number token.old.view.seen) (handed_of u.old) }
    ensures seen { Begins token.new.view.seen u.new.view.seen }
    ensures kept { kept_of u.new ≡ kept_of u.old }
{
    u.meet(token.note());
}

// Once an updater is drained, each later reply of the heart is of all that it kept, and of its base.
pub fn drain_and_ask<C: Composable, R: Wait>(
    rt: &R,
    heart: &mut Heart<C>,
    u: Updater<C>,
) -> Result<u64, OutOfMemory>
    requires table { u.table ≡ heart.old.table }
    ensures kept { OnOk result (entries_by u.number heart.new.view.seen ≡ kept_of u) }
    ensures base { OnOk result (Begins (base_of u) heart.new.view.seen) }
    ensures entries { OnOk result (All (IsEntry heart.old.updaters) heart.new.view.seen) }
    ensures word { IfOk result (λ word. word ≡ C.packed_of heart.old.view.numbers heart.new.view.seen) }
{
    if let Drain::OutOfMemory(_) = heart.drain(rt, u) {
        return Err(OutOfMemory);
    }
    let word = heart.ask();
    let _admitted = heart.admitted();
    Ok(word)
}

// An updater that is settled has seen all that it handed over.
pub fn settle_and_see<C: Composable>(u: &mut Updater<C>) -> Settle
    ensures settled { result ≡ Settle.Settled → entries_by u.new.number u.new.view.seen ≡ handed_of u.new }
    ensures entries { All (IsEntry (length u.new.view.sizes)) u.new.view.seen }
{
    let answer = u.settle();
    let _number = u.number();
    answer
}

// An item that is filtered is not kept by the hint of a list that what is seen begins with.
pub fn update_or_idle<C: Composable>(u: &mut Updater<C>, item: u64) -> Update
    requires item { IsItem item }
    requires room { length (kept_of u.old) < most_kept }
    ensures idle { result ≡ Update.Filtered → (front : List Entry) × Begins front u.new.view.seen
        × (C.keeps_of (C.hint_of u.new.view.numbers front) item ≡ false) }
{
    let _number = u.number();
    u.update(item)
}
