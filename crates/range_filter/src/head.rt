// A filter's header, once its words are taken.
ghost use Rattle.std.specs.Prelude.{◌≡◌, ◌^◌, ◌≤◌, ◌<◌};
ghost use Rattle.range_filter.specs.Calls.{key_after};
ghost use Rattle.range_filter.specs.loops.LaidTree.{laid_tree};
ghost use Rattle.range_filter.specs.Promise.{checked_key, checked_range};

use crate::{FilterRefusal, Key};
use halving_tree::{Node, Subtree};

// How many keys there are.
pub(crate) fn span_of(levels: u32) -> u32
    requires { levels ≤ 20 }
    ensures { result ≡ 2 ^ levels }
{
    1u32 << levels
}

// A filter's header, and how many words its tree has.
#[derive(Clone, Copy)]
pub(crate) struct Head {
    pub(crate) levels: u32,
    pub(crate) room: u32,
    pub(crate) hand: Key,
    pub(crate) words: usize,
    pub(crate) ghost few_levels: { levels ≤ 20 },
}

impl Head {
    // How many keys there are.
    pub(crate) fn span(self) -> u32
        ensures { result ≡ 2 ^ self.levels }
    {
        span_of(self.levels)
    }

    // The tree that these words lay out.
    pub(crate) fn tree<'a>(self, w: &'a [u32]) -> Subtree<'a>
        ensures { result ≡ laid_tree w.entry self.levels }
    {
        Subtree {
            words: w,
            at: Node(3),
            levels: self.levels,
            span: self.span(),
        }
    }

    // Refuses what is no key.
    pub(crate) fn check_key(self, key: Key) -> Result<(), FilterRefusal>
        ensures { result ≡ checked_key self.levels key.0 }
    {
        if self.span() <= key.0 {
            return Err(FilterRefusal::NoKey);
        }
        Ok(())
    }

    // Refuses an end that is no key, then a low end above the high one.
    pub(crate) fn check_range(self, low: Key, high: Key) -> Result<(), FilterRefusal>
        ensures { result ≡ checked_range self.levels low.0 high.0 }
    {
        self.check_key(low)?;
        self.check_key(high)?;
        if high.0 < low.0 {
            return Err(FilterRefusal::LowAboveHigh);
        }
        Ok(())
    }

    // The key after x, or 0 past the end.
    pub(crate) fn key_after(self, x: u32) -> u32
        requires { x < 2 ^ self.levels }
        ensures { result ≡ key_after self.levels x }
    {
        let next = x + 1;
        if next == self.span() { 0 } else { next }
    }
}
