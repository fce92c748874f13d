// Several listeners, which a factory tells each entry.
ghost use Rattle.std.specs.Prelude.{◌≡◌, ◌+◌, ◌≤◌, ◌<◌, ◌++◌, ◌∷◌, [], false, is_ok, drop, take, length, slice_index_or};
ghost use Rattle.hib_outside.specs.Hears.{heard_after, left_after, IsDue};
ghost use Rattle.hib_listeners.specs.Told.{tells, AreTold};
ghost use Rattle.hib_outside.specs.declared.listener.Heard.TheVariants.{NoMemory};

use hib_base::Entry;
use hib_outside::{Heard, Listener};
use std::alloc::{AllocError, Global};
use std::marker::Model;

/// Listeners that are told each entry, in their order. Contracts see the list of them.
#[derive(Drop)]
pub struct Listeners<L> {
    list: Vec<L>,
}

impl<L> Model for Listeners<L> {
    ghost use Rattle.std.specs.Prelude.{List};

    ghost Value = { List L };

    ghost view = { λ s. s.list.items };
}

// Tells a listener an entry, unless one before it had no memory.
fn ask<L: Listener>(listener: &mut L, is_told: bool, alloc: Global, entry: &Entry) -> Heard
    ensures heard { L.heard listener.new ≡ heard_after result entry.now (L.heard listener.old) }
    ensures left { L.left listener.new ≡ left_after result (L.left listener.old) }
    ensures due { IsDue result (L.heard listener.old) (L.left listener.old) }
    ensures unasked { is_told ≡ false → result ≡ NoMemory }
{
    if !is_told {
        return Heard::NoMemory;
    }
    listener.hear(alloc, entry)
}

// Puts the listener at a place behind the first ones that are kept. Answers how many are kept then.
fn keep<L>(list: &mut Vec<L>, kept: usize, at: usize) -> usize
    requires order { kept ≤ at }
    requires within { at < length list.old.items }
    ensures count { result ≡ kept + 1 }
    ensures front { (d : L) → take (kept + 1) list.new.items
        ≡ take kept list.old.items ++ slice_index_or list.old.items at d ∷ [] }
    ensures rest { drop (at + 1) list.new.items ≡ drop (at + 1) list.old.items }
    ensures len { length list.new.items ≡ length list.old.items }
{
    list.swap(kept, at);
    kept + 1
}

// Tells all listeners in order, until one has no memory; those that leave are dropped. Answers whether all have heard.
fn tell_all<L: Listener>(list: &mut Vec<L>, alloc: Global, entry: &Entry) -> bool
    ensures { AreTold entry.now result (tells L.heard L.left list.old.items)
        (tells L.heard L.left list.new.items) }
{
    let mut is_told = true;
    let mut kept = 0;
    for at in 0..list.len() {
        match ask(&mut list[at], is_told, alloc, entry) {
            Heard::Stay => kept = keep(list, kept, at),
            Heard::Leave => {}
            Heard::NoMemory => {
                is_told = false;
                kept = keep(list, kept, at);
            }
        }
    }
    list.truncate(kept);
    is_told
}

impl<L> Listeners<L> {
    /// The listeners, in their order.
    pub fn open(list: Vec<L>) -> Listeners<L>
        ensures { result ≡ list.items }
    {
        Listeners { list }
    }

    /// The listeners that have stayed, in their order.
    pub fn close(self) -> Vec<L>
        ensures { result.items ≡ self }
    {
        self.list
    }
}

impl<L: Listener> Listeners<L> {
    /// Tells each listener an entry, in order. One that answers that it leaves is dropped, and no other. If memory
    /// runs out, those before the one that had none have heard the entry, and it and those after it haven't; all
    /// others that stay are there in their order.
    pub fn tell(&mut self, alloc: Global, entry: &Entry) -> Result<(), AllocError>
        ensures { AreTold entry.now (is_ok result) (tells L.heard L.left self.old)
            (tells L.heard L.left self.new) }
    {
        if tell_all(&mut self.list, alloc, entry) {
            Ok(())
        } else {
            Err(AllocError)
        }
    }
}
