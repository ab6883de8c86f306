//! The items of a block of a window on their way to an updater, many lines at a time.
ghost use Rattle.std.specs.Prelude.{◌≡◌, ◌<◌, ◌≤◌, ◌+◌, ◌++◌, ℕ, List, [], length, slice_range, true};
ghost use Rattle.std.specs.List.{filter};
ghost use Rattle.sk_hub.specs.Updaters.{UpdaterState, kept_of};
ghost use Rattle.sk_fill.specs.Windows.{items_in};
ghost use Rattle.sk_hub.specs.Calls.{Takes};
ghost use Rattle.sk_feed.specs.OnItsWay.{IsOnItsWay};
ghost use Rattle.sk_model.specs.Limits.{most_kept};
ghost use Rattle.sk_model.specs.Width.{AreItems};

use sk_compose::Composable;
use sk_fill::{Block, Window, WindowLines, gather_all};
use sk_hub::Updater;
use sk_lines::{GROUP, Span};
use sk_read::Kind;
use std::marker::Model;

// The items of a block on their way to an updater. If that is busy they stay, and no line is sought again.
#[derive(Drop)]
pub(crate) struct BlockItems<'a> {
    kind: Kind,
    // the lines of the window that come next, and how many of them are of the block
    lines: WindowLines<'a>,
    left: usize,
    // items of the lines before: those from one place up to another wait
    kept: [u64; GROUP],
    at: usize,
    end: usize,
}

impl<'a> Model for BlockItems<'a> {
    ghost use Rattle.std.specs.Prelude.{◌≡◌, ◌≤◌, length, take, slice_range};
    ghost use Rattle.sk_model.specs.Width.{AreItems};
    ghost use Rattle.sk_feed.specs.OnItsWay.{BlockItemsState};

    ghost Value = { BlockItemsState };

    ghost view = { λ b. record { kind = b.kind; waiting = slice_range b.kept b.at b.end; rest = take b.left b.lines.rest } };

    ghost invariant = { λ b. (b.at ≤ b.end) × (b.end ≤ 128) × (b.left ≤ length b.lines.rest) × AreItems (slice_range b.kept b.at b.end) };
}

impl<'a> BlockItems<'a> {
    // Those of a block of a window.
    pub(crate) fn of(window: &'a Window, block: Block, kind: Kind) -> BlockItems<'a>
        requires order { block.from ≤ block.to }
        requires within { block.to ≤ length window.now.lines }
        ensures kind { result.kind ≡ kind }
        ensures waiting { result.waiting ≡ [] }
        ensures rest { result.rest ≡ slice_range window.now.lines block.from block.to }
    {
        BlockItems {
            kind,
            lines: window.lines_from(block.from),
            left: (block.to - block.from) as usize,
            kept: [0; GROUP],
            at: 0,
            end: 0,
        }
    }

    // Offers them, in order, until the updater is busy with one, and returns whether all were taken.
    pub(crate) fn feed<C: Composable>(&mut self, u: &mut Updater<C>) -> bool
        requires room { length (kept_of u.old) + (length self.old.waiting + length self.old.rest) ≤ most_kept }
        ensures room { length (kept_of u.new) + (length self.new.waiting + length self.new.rest) ≤ most_kept }
        ensures way { (lines : List (List ℕ)) (start : UpdaterState) → IsOnItsWay C.keeps_of C.hint_of lines start u.old self.old
            → IsOnItsWay C.keeps_of C.hint_of lines start u.new self.new }
        ensures kind { self.new.kind ≡ self.old.kind }
        ensures none_waits { result ≡ true → self.new.waiting ≡ [] }
        ensures none_is_left { result ≡ true → self.new.rest ≡ [] }
    {
        'group: while self.offer_waiting(u) {
            if self.left == 0 {
                return true;
            }
            self.gather_next::<C>(u.hint());
        }
        false
    }

    // Offers those that wait, in order, until the updater is busy with one, and returns whether all were taken.
    fn offer_waiting<C: Composable>(&mut self, u: &mut Updater<C>) -> bool
        requires room { length (kept_of u.old) + length self.old.waiting ≤ most_kept }
        ensures taken { (items : List ℕ) × (self.old.waiting ≡ items ++ self.new.waiting) × Takes C.keeps_of C.hint_of u.old items u.new }
        ensures all { result ≡ true → self.new.waiting ≡ [] }
        ensures kind { self.new.kind ≡ self.old.kind }
        ensures rest { self.new.rest ≡ self.old.rest }
    {
        self.at += u.update_each(&self.kept[self.at..self.end]);
        self.at == self.end
    }

    // Continues by some lines: of their items those wait that a hint keeps.
    fn gather_next<C: Composable>(&mut self, hint: u64)
        requires none_waits { self.old.waiting ≡ [] }
        requires some { 0 < length self.old.rest }
        ensures kind { self.new.kind ≡ self.old.kind }
        ensures gathered { (next : List (List ℕ)) × (0 < length next) × (self.old.rest ≡ next ++ self.new.rest)
            × (self.new.waiting ≡ filter (C.keeps_of hint) (items_in self.old.kind next)) }
    {
        let mut spans = [Span::EMPTY; GROUP];
        let (text, count) = self.lines.next_lines(&mut spans, self.left);
        self.left -= count;
        self.at = 0;
        self.end = gather_all::<C>(self.kind, hint, text, &spans[..count], &mut self.kept);
    }
}
