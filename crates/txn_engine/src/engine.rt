//! The engine: what it keeps.
ghost use Rattle.std.specs.Prelude.{◌≡◌, ◌↔◌, All, IsTrue};
ghost use Rattle.txn_engine.specs.Kept.{IsEngine};
ghost use Rattle.txn_engine.specs.View.{IsWhole};

use std::alloc::Global;
use std::marker::Model;
use txn_base::{Limits, PartState, Text};
use txn_buffer::Topic;
use txn_coordinator::Coordinator;
use txn_ledger::Ledger;

/// The name under which a fault of the coordinator is told.
pub const COORDINATOR: &str = "@coordinator";

/// The coordinator and the topics of one disk. The topics are numbered from 1 by the order of their names.
#[derive(Drop)]
pub struct Engine {
    pub(crate) alloc: Global,
    pub(crate) names: Vec<Text>,
    pub(crate) coordinator: Coordinator<Ledger>,
    pub(crate) topics: Vec<Topic<Ledger>>,
    /// The greatest moment told, in milliseconds.
    pub(crate) latest: u64,
    pub(crate) limits: Limits,
}

impl Model for Engine {
    ghost use Rattle.txn_engine.specs.View.{EngineView};
    ghost use Rattle.txn_engine.specs.Kept.{IsEngine};

    ghost Value = { EngineView };

    ghost view = { λ e. record { names = e.names.items; coord = e.coordinator; topics = e.topics.items; latest = e.latest; limits = e.limits } };

    ghost invariant = { λ e. IsEngine (record { names = e.names.items; coord = e.coordinator; topics = e.topics.items; latest = e.latest; limits = e.limits }) };
}

impl Engine {
    /// An engine over a coordinator and topics that are rebuilt, one topic for each of these names, of which no moment was
    /// told yet.
    pub fn over(
        alloc: Global,
        names: Vec<Text>,
        coordinator: Coordinator<Ledger>,
        topics: Vec<Topic<Ledger>>,
        limits: &Limits,
    ) -> Engine
        requires kept { IsEngine
            (record {
              names = names.items;
              coord = coordinator;
              topics = topics.items;
              latest = 0;
              limits = limits.now;
            }) }
        ensures { result ≡ record {
          names = names.items;
          coord = coordinator;
          topics = topics.items;
          latest = 0;
          limits = limits.now;
        } }
    {
        Engine {
            alloc,
            names,
            coordinator,
            topics,
            latest: 0,
            limits: *limits,
        }
    }

    /// Every part is rebuilt, and nothing is in flight. The further clause says what always holds of an engine.
    pub fn is_whole(&self) -> bool
        ensures whole { IsTrue result ↔ IsWhole self.now }
        ensures kept { IsEngine self.now }
    {
        matches!(self.coordinator.state(), PartState::Whole) && are_whole(&self.topics)
    }

    /// Does nothing. Its clause says what always holds of an engine.
    pub(crate) fn kept(&self)
        ensures { IsEngine self.now }
    {
        let _latest = self.latest;
    }
}

fn are_whole(topics: &[Topic<Ledger>]) -> bool
    ensures { IsTrue result ↔ All (λ t. IsTrue t.whole) topics.now }
{
    topics
        .iter()
        .all(|topic| matches!(topic.state(), PartState::Whole))
}
