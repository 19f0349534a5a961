ghost use Rattle.std.specs.Prelude.{◌≡◌, ◌<◌, ◌≤◌, [], ◌∷◌, reverse, drop, length, slice_get, MatchOption, OnOk, OnErr};
ghost use Rattle.std.specs.Option.{option_copied};
ghost use Rattle.code_thread.specs.Stacks.{topmost};

use std::alloc::{AllocError, Global};
use std::marker::Model;

/// A growing list that contracts see with the last item first.
#[derive(Debug, Drop)]
pub struct Stack<T> {
    items: Vec<T>,
}

impl<T> Model for Stack<T> {
    ghost use Rattle.std.specs.Prelude.{List, reverse};
    ghost use Rattle.std.specs.Coded.{coded_list};

    ghost Value = { List T };

    ghost coded = { coded_list T.code };

    ghost view = { λ stack. reverse stack.items.items };
}

impl<T> Stack<T> {
    /// The empty stack, which takes no memory.
    pub fn new(alloc: Global) -> Stack<T>
        ensures { result ≡ [] }
    {
        Stack {
            items: Vec::new(alloc),
        }
    }

    /// The number of items.
    pub fn len(&self) -> usize
        ensures { result ≡ length self.now }
    {
        self.items.len()
    }

    /// The item on top.
    #[tactic(auto, using(crate::proofs::StackLaws::top_last))]
    pub fn top(&self) -> Option<&T>
        ensures { option_copied result ≡ slice_get self.now 0 }
    {
        self.items.last()
    }

    /// The topmost items, so many, the last one last, and `None` exactly where there are fewer.
    pub fn topmost(&self, count: usize) -> Option<&[T]>
        ensures { MatchOption result (length self.now < count)
            (λ items. (count ≤ length self.now) × (items.now ≡ topmost count self.now)) }
    {
        let below = self.items.len().checked_sub(count)?;
        Some(&self.items[below..])
    }

    /// The items, the one on top last.
    #[tactic(auto, using(crate::proofs::StackLaws::twice_turned))]
    pub fn as_slice(&self) -> &[T]
        ensures { result.now ≡ reverse self.now }
    {
        self.items.as_slice()
    }

    /// Takes the item on top, and answers `None` exactly where there is none.
    #[tactic(auto, using(crate::proofs::StackLaws::pop_turned))]
    pub fn pop(&mut self) -> Option<T>
        ensures { MatchOption result ((self.old ≡ []) × (self.new ≡ [])) (λ item. self.old ≡ item ∷ self.new) }
    {
        self.items.pop()
    }
}

impl<T: Drop> Stack<T> {
    /// Puts an item on top. Want of memory drops it and leaves the stack as it was.
    #[tactic(auto, using(crate::proofs::StackLaws::reverse_push))]
    pub fn push(&mut self, item: T) -> Result<(), AllocError>
        ensures ok { OnOk result (self.new ≡ item ∷ self.old) }
        ensures err { OnErr result (self.new ≡ self.old) }
    {
        self.items.push(item)?;
        Ok(())
    }

    /// Drops the topmost items, so many, or all where there are fewer.
    #[tactic(auto, using(crate::proofs::StackLaws::kept_saturated))]
    pub fn drop_topmost(&mut self, count: usize)
        ensures { self.new ≡ drop count self.old }
    {
        let below = self.items.len().saturating_sub(count);
        self.items.truncate(below);
    }
}
