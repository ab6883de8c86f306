// Who watches replies.
ghost use Rattle.std.specs.Prelude.{◌≡◌};
ghost use Rattle.sk_watch.specs.Watching.{Watching, armed, answers, having_seen};

use sk_theta::Reply;

/// Who sees one reply after another, until it returns true.
pub trait Watcher: Drop {
    /// What it shows now, and what its calls make of that.
    ghost watching: { Self → Watching };

    /// Sets what it watches for, by the k of a sketch and a mark.
    fn arm(&mut self, k: u32, mark: u64)
        ensures { watching self.new ≡ armed k mark (watching self.old) };

    /// Sees a reply, and returns whether that is what it watches for.
    fn see(&mut self, reply: Reply) -> bool
        ensures answer { result ≡ answers reply (watching self.old) }
        ensures seen { watching self.new ≡ having_seen reply (watching self.old) };
}
