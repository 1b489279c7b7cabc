ghost use Rattle.std.specs.Prelude.{◌≡◌, ◌≤◌, ◌^◌, [], ◌∷◌, ◌++◌, length, IfOk, OnOk, OnErr, slice_get, ◌==◌};
ghost use Rattle.proto_names.specs.Roles.{first_groups, last_place};

use crate::PartySet;
use std::alloc::{AllocError, Global};
use std::marker::Model;

/// A group that holds shares of the secret.
#[derive(Clone, Copy, Debug, PartialEq, Eq)]
pub struct Group {
    /// How many of its parties act together.
    pub threshold: u32,
    /// How many parties it has: 1 to that number.
    pub parties: u32,
    /// The parties of the group before that dealt to it; of the first group none, to which all deal.
    pub dealers: PartySet,
}

/// A list of groups, in the order in which they held the secret.
#[derive(Drop)]
pub struct Groups {
    items: Vec<Group>,
}

impl Model for Groups {
    ghost use Rattle.std.specs.Prelude.{List};
    ghost use Rattle.proto_names.specs.declared.group.Group.{Group};

    ghost Value = { List Group };

    ghost view = { λ a. a.items.items };
}

impl Groups {
    /// The empty list, which takes no memory.
    pub fn new(alloc: Global) -> Groups
        ensures { result ≡ [] }
    {
        Groups {
            items: Vec::new(alloc),
        }
    }

    /// The list of the first group alone.
    pub fn first(alloc: Global, threshold: u32, parties: u32) -> Result<Groups, AllocError>
        ensures { IfOk result (λ groups. groups ≡ first_groups threshold parties) }
    {
        let mut groups = Groups::new(alloc);
        groups.push(Group {
            threshold,
            parties,
            dealers: PartySet { bits: 0 },
        })?;
        Ok(groups)
    }

    /// Takes over a list of groups.
    pub fn from_vec(items: Vec<Group>) -> Groups
        ensures { result ≡ items.items }
    {
        Groups { items }
    }

    /// Gives its groups away.
    pub fn into_vec(self) -> Vec<Group>
        ensures { result.items ≡ self }
    {
        self.items
    }

    /// Puts a group behind the others.
    pub fn push(&mut self, item: Group) -> Result<(), AllocError>
        ensures ok { OnOk result (self.new ≡ self.old ++ item ∷ []) }
        ensures err { OnErr result (self.new ≡ self.old) }
    {
        self.items.push(item)?;
        Ok(())
    }

    /// The number of groups.
    pub fn len(&self) -> usize
        ensures { result ≡ length self.now }
    {
        self.items.len()
    }

    /// Whether there is none.
    pub fn is_empty(&self) -> bool
        ensures { result ≡ (length self.now == 0) }
    {
        self.items.is_empty()
    }

    /// The group at a place.
    pub fn get(&self, place: usize) -> Option<Group>
        ensures { result ≡ slice_get self.now place }
    {
        self.items.get(place).copied()
    }

    /// The place of the last group.
    pub fn last_place(&self) -> u32
        requires some { 1 ≤ length self.now }
        requires few { length self.now ≤ 2 ^ 30 }
        ensures { result ≡ last_place self.now }
    {
        self.items.len() as u32 - 1
    }

    /// All groups.
    pub fn as_slice(&self) -> &[Group]
        ensures { result.now ≡ self.now }
    {
        self.items.as_slice()
    }
}
