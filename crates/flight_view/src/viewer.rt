//! A seat's views, in a schedule.
ghost use Rattle.std.specs.Prelude.{◌≡◌, ◌≢◌, ◌<◌, ◌≤◌, ◌++◌, ◌∷◌, [], List, None, OnOk, Some, false, true, vec_capacity, vec_len};
ghost use Rattle.cursor_word.specs.Shape.{Grid};
ghost use Rattle.step_log.specs.declared.log.Step.{Step};
ghost use Rattle.flight_view.specs.declared.walking.View.{View};
ghost use Rattle.flight_view.specs.Spots.{gaps_of, items_of, read_after};
ghost use Rattle.flight_view.specs.Viewers.{IsGood, IsOnWay, LoadsOne, Stands};

use crate::gaps::{Gap, Gaps};
use crate::spot::{Shown, Spot, follow};
use crate::walking::View;
use block_looks::{LookPhase, look_law, look_want};
use cursor_word::Shape;
use drop_core::DropState;
use rail::Batch;
use std::alloc::{AllocError, Global};
use std::mem::replace;

/// Where the walk of the view under way stands, the words of an entry that it has read, and what it
/// has shown so far; and the last view that ended.
#[derive(Drop)]
pub struct Viewer {
    pub spot: Spot,
    pub read: Vec<u64>,
    pub items: Batch,
    pub gaps: Vec<Gap>,
    pub view: Option<View>,
}

impl Viewer {
    /// A seat that has viewed nothing.
    pub fn new(alloc: Global) -> Viewer
        ensures stands { (shape : Grid) → Stands shape [] result }
        ensures view { result.view ≡ None }
    {
        Viewer {
            spot: Spot::start(),
            read: Vec::new(alloc),
            items: Batch::new(alloc),
            gaps: Vec::new(alloc),
            view: None,
        }
    }

    /// Whether a view is under way.
    pub fn is_viewing(&self) -> bool
        ensures yes { result ≡ true → (shape : Grid) (loads : List Step)
            → Stands shape loads self.now → loads ≢ [] }
        ensures no { result ≡ false → (shape : Grid) (loads : List Step)
            → Stands shape loads self.now → loads ≡ [] }
    {
        match self.spot.phase {
            LookPhase::Head => false,
            _ => true,
        }
    }

    /// One load of the view, which begins one where none is under way.
    pub fn load(
        &mut self,
        alloc: Global,
        shape: &Shape,
        queue: &DropState,
    ) -> Result<(), AllocError>
        requires shape { queue.now.shape ≡ shape.now }
        requires sound { IsGood shape.now queue.now.state }
        requires stands { IsOnWay shape.now self.old }
        ensures on_way { IsOnWay shape.now self.new }
        ensures loads { (loads : List Step) → Stands shape.now loads self.old
            → OnOk result (LoadsOne shape.now queue.now.state.words loads self.old self.new) }
    {
        self.read.reserve(1)?;
        self.items.reserve_one()?;
        self.gaps.reserve(1)?;
        look_law();
        let _blocks = shape.blocks();
        let phase = self.spot.phase;
        let found = queue.word(look_want(shape, &phase));
        let loaded = follow(shape, &self.spot, &self.read, found);
        keep_word(&mut self.read, &phase, found);
        add(&mut self.items, &mut self.gaps, loaded.shown);
        match loaded.next {
            Some(spot) => self.spot = spot,
            None => self.end(alloc),
        }
        Ok(())
    }

    // The view has ended.
    fn end(&mut self, alloc: Global)
        ensures stands { (shape : Grid) → Stands shape [] self.new }
        ensures view { (view : View) × (self.new.view ≡ Some view)
            × (view.items.items ≡ self.old.items.items) × (view.gaps ≡ self.old.gaps.items) }
    {
        let items = replace(&mut self.items, Batch::new(alloc));
        let gaps = replace(&mut self.gaps, Vec::new(alloc));
        self.spot = Spot::start();
        self.view = Some(View {
            items,
            gaps: Gaps { gaps },
        });
    }
}

// Keeps a word of an entry that was read, where there is room. Other loads begin anew.
fn keep_word(read: &mut Vec<u64>, phase: &LookPhase, found: u64)
    requires room { vec_len read.old < vec_capacity read.old }
    ensures { read.new.items ≡ read_after phase.now read.old.items found }
{
    match *phase {
        LookPhase::Word { .. } => push(read, found),
        _ => read.clear(),
    }
}

// Adds what a load showed, where there is room.
fn add(items: &mut Batch, gaps: &mut Vec<Gap>, shown: Shown)
    requires items { 1 ≤ items.old.spare }
    requires gaps { vec_len gaps.old < vec_capacity gaps.old }
    ensures items { items.new.items ≡ items.old.items ++ items_of shown }
    ensures gaps { gaps.new.items ≡ gaps.old.items ++ gaps_of shown }
{
    match shown {
        Shown::Nothing => {}
        Shown::Item(item) => items.push(item),
        Shown::Gap(gap) => push(gaps, gap),
    }
}

// Puts a value at the end, where there is room.
fn push<T>(values: &mut Vec<T>, value: T)
    requires room { vec_len values.old < vec_capacity values.old }
    ensures { values.new.items ≡ values.old.items ++ value ∷ [] }
{
    match values.push(value) {
        Ok(()) => {}
        Err(_) => unreachable!(),
    }
}
