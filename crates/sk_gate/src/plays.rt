//! What each step of the table shows to whoever takes it.
use crate::rule::Slot;
use atomic_table::{Join, Play, Split};
use sk_compose::Composable;
use sk_machine::views::View;
use std::marker::PhantomData;

/// A load of the published word.
pub struct Ask<C> {
    sketch: PhantomData<C>,
}

impl<C: Composable> Play<Slot<C>, View> for Ask<C> {
    ghost use Rattle.sk_gate.specs.Plays.{asked};

    ghost then = { asked C.packed_of };
}

/// A load of an updater's word, by that updater.
pub struct Look<C> {
    sketch: PhantomData<C>,
}

impl<C: Composable> Play<Slot<C>, View> for Look<C> {
    ghost use Rattle.sk_gate.specs.Plays.{looked};
    ghost use Rattle.sk_gate.specs.Slots.{telling};

    ghost then = { looked (telling C.tells C.told_name C.told_of) C.hint_of };
}

/// A look that gives the slot back.
pub struct Rest<C> {
    sketch: PhantomData<C>,
}

impl<C: Composable> Play<Slot<C>, View> for Rest<C> {
    ghost use Rattle.sk_gate.specs.Plays.{rested};

    ghost then = { rested };
}

/// A size that the proof of a call picks.
pub trait Size {
    ghost use Rattle.std.specs.Prelude.{ℕ};

    ghost size: { ℕ };
}

impl Size for std::marker::Brand {
    ghost size = { 0 };
}

/// The look by which an updater is admitted, with a size.
pub struct Admit<C, K> {
    sketch: PhantomData<(C, K)>,
}

impl<C: Composable, K: Size> Play<Slot<C>, View> for Admit<C, K> {
    ghost use Rattle.sk_gate.specs.Plays.{admitted};

    ghost then = { admitted C.hint_of K.size };
}

/// A store of 0 in an updater's word.
pub struct Hand<C> {
    sketch: PhantomData<C>,
}

impl<C: Composable> Play<Slot<C>, View> for Hand<C> {
    ghost use Rattle.sk_gate.specs.Plays.{handed};

    ghost then = { handed };
}

/// A compare-exchange of the turn, from 0.
pub struct Turn<C> {
    sketch: PhantomData<C>,
}

impl<C: Composable> Play<Slot<C>, View> for Turn<C> {
    ghost use Rattle.sk_gate.specs.Plays.{turned};
    ghost use Rattle.sk_gate.specs.Slots.{sketching};

    ghost then = { turned (sketching C.is_of C.numbers C.name) };
}

/// A store of 0 in the turn.
pub struct Yield<C> {
    sketch: PhantomData<C>,
}

impl<C: Composable> Play<Slot<C>, View> for Yield<C> {
    ghost use Rattle.sk_gate.specs.Plays.{yielded};

    ghost then = { yielded };
}

/// A load of an updater's word, by whoever propagates.
pub struct Find<C> {
    sketch: PhantomData<C>,
}

impl<C: Composable> Play<Slot<C>, View> for Find<C> {
    ghost use Rattle.sk_gate.specs.Plays.{found};

    ghost then = { found };
}

/// A find that gives the slot back, without a parcel.
pub struct Leave<C> {
    sketch: PhantomData<C>,
}

impl<C: Composable> Play<Slot<C>, View> for Leave<C> {
    ghost use Rattle.sk_gate.specs.Plays.{left_it};

    ghost then = { left_it };
}

/// A store of the published word.
pub struct Publish<C> {
    sketch: PhantomData<C>,
}

impl<C: Composable> Play<Slot<C>, View> for Publish<C> {
    ghost use Rattle.sk_gate.specs.Plays.{published};

    ghost then = { published };
}

/// A store of a hint in an updater's word.
pub struct GiveBack<C> {
    sketch: PhantomData<C>,
}

impl<C: Composable> Play<Slot<C>, View> for GiveBack<C> {
    ghost use Rattle.sk_gate.specs.Plays.{gave_back};

    ghost then = { gave_back };
}

/// The next updater's seat, out of the first seat.
pub struct NextUpdater;

impl Split<View> for NextUpdater {
    ghost use Rattle.sk_gate.specs.Views.{after_making, new_updater};

    ghost left = { after_making };

    ghost right = { new_updater };
}

/// A token's or a note's seat, out of any.
pub struct Copying;

impl Split<View> for Copying {
    ghost use Rattle.sk_gate.specs.Views.{after_split, copy_of};

    ghost left = { after_split };

    ghost right = { copy_of };
}

/// A seat takes in another.
pub struct TakingIn;

impl Join<View> for TakingIn {
    ghost use Rattle.sk_gate.specs.Views.{after_join, spent};

    ghost both = { after_join };

    ghost spent = { spent };
}
