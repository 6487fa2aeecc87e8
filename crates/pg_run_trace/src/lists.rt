//! Lists of turns and replies.

ghost use Rattle.std.specs.Prelude.{◌≡◌};

use crate::turn::Turn;
use pg_ir::InstrId;
use std::marker::Model;

/// A list of turns, which contracts see as that list.
#[derive(Debug, Drop)]
pub struct Turns {
    items: Vec<Turn>,
}

impl Model for Turns {
    ghost use Rattle.pg_run_trace.specs.Lists.{TurnList};

    ghost Value = { TurnList };

    ghost view = { λ s. s.items.items };
}

impl Turns {
    /// The list of a vector's elements.
    pub fn from_vec(items: Vec<Turn>) -> Turns
        ensures items { result ≡ items.items }
    {
        Turns { items }
    }

    /// The turns in order.
    pub fn as_slice(&self) -> &[Turn]
        ensures items { result.now ≡ self.now }
    {
        self.items.as_slice()
    }

    /// The turns as a vector again.
    pub fn into_vec(self) -> Vec<Turn>
        ensures items { result.items ≡ self }
    {
        self.items
    }
}

/// A list of replies, which contracts see as that list.
#[derive(Debug, Drop)]
pub struct Replies {
    items: Vec<u64>,
}

impl Model for Replies {
    ghost use Rattle.pg_run_trace.specs.Lists.{ReplyList};

    ghost Value = { ReplyList };

    ghost view = { λ s. s.items.items };
}

impl Replies {
    /// The list of a vector's elements.
    pub fn from_vec(items: Vec<u64>) -> Replies
        ensures items { result ≡ items.items }
    {
        Replies { items }
    }

    /// The replies in order.
    pub fn as_slice(&self) -> &[u64]
        ensures items { result.now ≡ self.now }
    {
        self.items.as_slice()
    }

    /// The replies as a vector again.
    pub fn into_vec(self) -> Vec<u64>
        ensures items { result.items ≡ self }
    {
        self.items
    }
}

/// A list of instructions, which contracts see as that list.
#[derive(Debug, Drop)]
pub struct InstrIds {
    items: Vec<InstrId>,
}

impl Model for InstrIds {
    ghost use Rattle.pg_run_trace.specs.Lists.{InstrIdList};

    ghost Value = { InstrIdList };

    ghost view = { λ s. s.items.items };
}

impl InstrIds {
    /// The list of a vector's elements.
    pub fn from_vec(items: Vec<InstrId>) -> InstrIds
        ensures items { result ≡ items.items }
    {
        InstrIds { items }
    }

    /// The instructions in order.
    pub fn as_slice(&self) -> &[InstrId]
        ensures items { result.now ≡ self.now }
    {
        self.items.as_slice()
    }

    /// The instructions as a vector again.
    pub fn into_vec(self) -> Vec<InstrId>
        ensures items { result.items ≡ self }
    {
        self.items
    }
}
