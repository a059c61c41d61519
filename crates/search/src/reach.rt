ghost use Rattle.std.specs.Prelude.{◌≡◌, ◌-◌, None, Some, replicate, slice_set};
ghost use Rattle.search.specs.Inside.{Step};
ghost use Rattle.search.specs.Table.{Fits, parent_in};
ghost use Rattle.search.specs.Record.{parent_of, arc_to, reached};

use crate::MOST_STEPS;
use std::marker::Model;

// How a step was reached: it is the start, or by an arc (its parent arc). An enum, since an `Option` within another would
// not say which none is which.
#[derive(Clone, Copy)]
pub(super) enum Parent {
    Start,
    Along(u16),
}

// The entry of a step that was not reached, and that of the start; any other is the number of the parent arc. An
// `Option<Parent>` takes 6 bytes in place of 2: with a table of them a search of the smallest map took half as long again.
const NONE: u16 = u16::MAX;

const START: u16 = u16::MAX - 1;

// The steps that a search reached; step v has entry v - 1. A table and no map by step, since a search asks for no memory.
#[derive(Drop)]
pub struct Reach {
    table: [u16; MOST_STEPS],
}

impl Model for Reach {
    ghost use Rattle.std.specs.Prelude.{map};
    ghost use Rattle.search.specs.Table.{Parents, parent_in};

    ghost Value = { Parents };

    ghost view = { λ r. record { parents = map parent_in r.table } };
}

impl Reach {
    // No step is reached.
    pub(super) fn none() -> Self
        ensures { result.parents ≡ replicate 1024 None }
    {
        Reach {
            table: [NONE; MOST_STEPS],
        }
    }

    // Notes how a step was reached.
    pub(super) fn note(&mut self, step: usize, parent: Parent)
        requires step { Step 1024 step }
        requires fits { Fits parent }
        ensures { self.new.parents ≡ slice_set self.old.parents (step - 1) (Some parent) }
    {
        self.table[step - 1] = entry_of(parent);
    }

    // How a step was reached, if it was; one that the table has no entry for was not.
    pub(super) fn parent(&self, step: usize) -> Option<Parent>
        ensures { result ≡ parent_of self.now.parents step }
    {
        parent_in(*self.table.get(step.checked_sub(1)?)?)
    }

    // The arc by which a step was reached; none for the start, and for a step that was not reached.
    pub(super) fn arc_to(&self, step: usize) -> Option<u16>
        ensures { result ≡ arc_to self.now.parents step }
    {
        match self.parent(step)? {
            Parent::Start => None,
            Parent::Along(k) => Some(k),
        }
    }

    // Whether a step was reached; no where there is no such step.
    pub fn reaches(&self, step: usize) -> bool
        ensures { result ≡ reached self.now step }
    {
        self.parent(step).is_some()
    }
}

// What an entry says.
fn parent_in(entry: u16) -> Option<Parent>
    ensures { result ≡ parent_in entry }
{
    match entry {
        NONE => None,
        START => Some(Parent::Start),
        k => Some(Parent::Along(k)),
    }
}

// The entry that says it.
fn entry_of(parent: Parent) -> u16
    requires { Fits parent }
    ensures { parent_in result ≡ Some parent }
{
    match parent {
        Parent::Start => START,
        Parent::Along(k) => k,
    }
}
