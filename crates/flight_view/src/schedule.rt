//! Schedules with views among the steps of calls.
ghost use Rattle.std.specs.Prelude.{◌≡◌, ◌<◌, ◌↔◌, All, IfOk, IfSome, IsNone, None, OnOk, Some, length};
ghost use Rattle.std.specs.List.{AllByRecursion};
ghost use Rattle.cursor_word.specs.Cursor.{most_puts};
ghost use Rattle.flight_view.specs.Schedules.{Moment, SuitsView, start_moment};
ghost use Rattle.flight_view.specs.Viewers.{HasRoom, IsFresh, IsGood, IsRun, LeadsTo, StandsFor, view_at};

use crate::viewer::Viewer;
use crate::walking::View;
use block_looks::look_law;
use cursor_word::Shape;
use drop_core::{DropState, Event};
use std::alloc::{AllocError, Global};
use std::marker::Model;

/// What a schedule with views does next: a step of a call, or a step of a view of a seat.
#[derive(Clone, Copy)]
pub enum ViewEvent {
    Step(Event),
    View { seat: u64 },
}

/// The queue of a schedule with views, and what each seat has viewed.
#[derive(Drop)]
pub struct ViewState {
    shape: Shape,
    queue: DropState,
    viewers: Vec<Viewer>,
}

impl Model for ViewState {
    ghost use Rattle.flight_view.specs.Viewers.{AreOnWay, Viewing};

    ghost Value = { Viewing };

    ghost view = { λ s. record {
      shape = s.shape;
      queue = s.queue.state;
      viewers = s.viewers.items;
    } };

    ghost invariant = { λ s. AreOnWay s.queue.shape record {
      shape = s.shape;
      queue = s.queue.state;
      viewers = s.viewers.items;
    } };
}

impl ViewState {
    /// The queue at its start, where no seat has viewed anything.
    fn new(alloc: Global, shape: Shape) -> Result<ViewState, AllocError>
        ensures shape { IfOk result (λ state. state.shape ≡ shape) }
        ensures start { IfOk result (λ state. StandsFor state (start_moment shape)) }
    {
        let queue = DropState::new(alloc, shape)?;
        let viewers = new_viewers(alloc, &shape)?;
        Ok(ViewState {
            shape,
            queue,
            viewers,
        })
    }

    /// The queue.
    pub fn queue(&self) -> &DropState
        ensures shape { result.now.shape ≡ self.now.shape }
        ensures queue { result.now.state ≡ self.now.queue }
    {
        &self.queue
    }

    /// The last view of a seat that ended.
    pub fn view(&self, seat: u64) -> Option<&View>
        requires { seat < self.now.shape.seats }
        ensures none { IsNone result ↔ (view_at self.now seat ≡ None) }
        ensures some { IfSome result (λ view. view_at self.now seat ≡ Some view.now) }
    {
        self.viewers[seat as usize].view.as_ref()
    }

    // One event.
    fn step(&mut self, alloc: Global, event: &ViewEvent) -> Result<(), AllocError>
        requires suits { SuitsView self.old.shape event.now }
        requires sound { IsGood self.old.shape self.old.queue }
        requires room { HasRoom self.old event.now }
        ensures shape { self.new.shape ≡ self.old.shape }
        ensures leads { (moment : Moment) → StandsFor self.old moment
            → OnOk result (LeadsTo self.old.shape moment event.now self.new) }
    {
        match *event {
            ViewEvent::Step(step) => {
                if self.viewers[step.seat as usize].is_viewing() {
                    return Ok(());
                }
                self.queue.step(&step)
            }
            ViewEvent::View { seat } => {
                if self.queue.mid_call(seat) {
                    return Ok(());
                }
                self.viewers[seat as usize].load(alloc, &self.shape, &self.queue)
            }
        }
    }
}

/// The state after a schedule with views: its events, done in order from the start.
pub fn view_run(alloc: Global, shape: Shape, events: &[ViewEvent]) -> Result<ViewState, AllocError>
    requires suits { AllByRecursion (SuitsView shape) events.now }
    requires few { length events.now < most_puts shape }
    ensures shape { IfOk result (λ state. state.shape ≡ shape) }
    ensures run { IfOk result (IsRun shape events.now) }
{
    let _blocks = shape.blocks();
    look_law();
    let mut state = ViewState::new(alloc, shape)?;
    for event in events {
        state.step(alloc, event)?;
    }
    Ok(state)
}

// No seat has viewed anything.
fn new_viewers(alloc: Global, shape: &Shape) -> Result<Vec<Viewer>, AllocError>
    ensures long { IfOk result (λ viewers. length viewers.items ≡ shape.now.seats) }
    ensures none { IfOk result (λ viewers. All (IsFresh shape.now) viewers.items) }
{
    let mut viewers = Vec::new(alloc);
    for _seat in 0..shape.seats() {
        viewers.push(Viewer::new(alloc))?;
    }
    Ok(viewers)
}
