//! How a reader learns the told values of the updaters of a hub.
ghost use Rattle.std.specs.Prelude.{◌≡◌, All, length, false};
ghost use Rattle.sk_hub.specs.Updaters.{UpdaterState};
ghost use Rattle.sk_snap.specs.History.{name_of};
ghost use Rattle.sk_learn.specs.Learning.{LearnsOf, LearnsFirst, AreAsked, untold};

use sk_hub::Updater;
use sk_snap::{Sequential, VersionReader, Versioned};
use std::sync::Wait;

/// Learns the told value of each updater, in order.
pub fn learn_all<S: Sequential, W: Wait + Drop>(
    reader: &mut VersionReader<S>,
    updaters: &mut [Updater<Versioned<S, W>>],
)
    requires names { All (λ (u : UpdaterState). u.view.name ≡ name_of reader.old.known.book) updaters.old }
    ensures learns { LearnsFirst reader.old updaters.old (length updaters.old) reader.new }
    ensures asked { AreAsked updaters.old (length updaters.old) updaters.new }
{
    'updater: for place in 0..updaters.len() {
        learn(reader, &mut updaters[place]);
    }
}

// Learns the told value of an updater.
fn learn<S: Sequential, W: Wait + Drop>(
    reader: &mut VersionReader<S>,
    u: &mut Updater<Versioned<S, W>>,
)
    requires name { u.old.view.name ≡ name_of reader.old.known.book }
    ensures learns { LearnsOf reader.old u.old reader.new }
    ensures asked { u.new ≡ untold u.old }
{
    // It shows to the proof how much may lie in its buffers.
    let _number = u.number();
    if let Some(told) = u.told() {
        reader.learn(told);
    }
}
