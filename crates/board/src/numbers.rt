//! The numbers of a printed turn.

ghost use Rattle.std.specs.Prelude.{◌≡◌, slice_get, IfOk, IfErr};
ghost use Rattle.message.specs.declared.fault.Fault.TheVariants.{OutOfMemory};
ghost use Rattle.board.specs.Shown.{with_states};

use crate::sheet::Sheet;
use alarm::AlarmState;
use desk::Turn;
use journal::Moment;
use message::{Fault, QueueName};
use metric_window::{Flows, Gauges, Row};
use std::alloc::Global;
use std::marker::Model;
use std::sync::Arc;

/// The numbers of a printed turn, without its marks.
#[derive(Debug, Drop)]
pub(crate) struct Numbers {
    clock: Moment,
    lines: u64,
    gauges: Gauges,
    current: Flows,
    rows: Arc<Vec<Row>>,
    states: Vec<AlarmState>,
}

impl Model for Numbers {
    ghost use Rattle.board.specs.Numbers.{Figures};

    ghost Value = { Figures };

    ghost view = { λ n. record { clock = n.clock; lines = n.lines; gauges = n.gauges; current = n.current; rows = n.rows.value.items; states = n.states.items } };
}

/// The alarm at a place, counted from 0, with the state at that place.
#[tactic(auto, using(crate::proofs::PairLemmas::pair_at, crate::proofs::PairLemmas::no_pair_at))]
fn alarm_at(
    alarms: &[(QueueName, AlarmState)],
    states: &[AlarmState],
    index: usize,
) -> Option<(QueueName, AlarmState)>
    ensures { result ≡ slice_get (with_states alarms.now states.now) index }
{
    if index < alarms.len() && index < states.len() {
        Some((alarms[index].0, states[index]))
    } else {
        None
    }
}

/// The names of alarms, each beside its state, in order, as far as both go. `OutOfMemory` is the only
/// refusal.
fn with_states(
    alloc: Global,
    alarms: &[(QueueName, AlarmState)],
    states: &[AlarmState],
) -> Result<Vec<(QueueName, AlarmState)>, Fault>
    ensures ok { IfOk result (λ paired. paired.items ≡ with_states alarms.now states.now) }
    ensures errors { IfErr result (λ fault. fault ≡ OutOfMemory) }
{
    let mut paired = Vec::new(alloc);
    while let Some(alarm) = alarm_at(alarms, states, paired.len()) {
        paired.push(alarm)?;
    }
    Ok(paired)
}

impl Numbers {
    ghost use Rattle.board.specs.Numbers.{figures_of};
    ghost use Rattle.board.specs.Shown.{with_figures};

    /// Those of a turn.
    pub(crate) fn of(turn: Turn) -> Numbers
        ensures { result ≡ figures_of turn }
    {
        let Turn {
            marks: _,
            clock,
            lines,
            gauges,
            current,
            rows,
            alarms,
        } = turn;
        Numbers {
            clock,
            lines,
            gauges,
            current,
            rows,
            states: alarms,
        }
    }

    /// A sheet with these numbers, whose names are those of the sheet that was given. `OutOfMemory` is
    /// the only refusal.
    pub(crate) fn sheet(&self, alloc: Global, given: &Sheet) -> Result<Sheet, Fault>
        ensures ok { IfOk result (λ sheet. sheet ≡ with_figures given.now self.now) }
        ensures errors { IfErr result (λ fault. fault ≡ OutOfMemory) }
    {
        Ok(Sheet {
            name: given.name,
            lines: self.lines,
            clock: self.clock,
            gauges: self.gauges,
            current: self.current,
            rows: Vec::from_slice(alloc, self.rows.as_slice())?,
            alarms: with_states(alloc, given.alarms.as_slice(), self.states.as_slice())?,
        })
    }
}
