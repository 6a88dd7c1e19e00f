ghost use Rattle.std.specs.Prelude.{◌≡◌, ◌<◌, [], All, length};
ghost use Rattle.std.specs.List.{AllByRecursion};
ghost use Rattle.cursor_word.specs.Cursor.{most_puts};
ghost use Rattle.rail.specs.Items.{IsRising, places};
ghost use Rattle.flight_view.specs.Views.{IsCaused, gap_blocks};
ghost use Rattle.flight_view.specs.Schedules.{Moment, RunsTo, SuitsView, start_moment};
ghost use Rattle.flight_view.specs.Promised.{IsAccepted, IsReusedGap, OfEachView, ShowsThen};

use crate::schedule::ViewEvent;
use block_looks::look_law;
use cursor_word::Shape;

/// In each schedule a view is a list of accepted items in rising order of place, each whole. Each
/// of its gaps has its cause, and a cursor of a greater block shows that the gap's block was
/// reused. What was accepted before the view's first load of an allocated cursor, in the blocks
/// that were the newest then, is in the view, or its block is among the gaps.
pub fn law_view(shape: &Shape, events: &[ViewEvent])
    requires suits { AllByRecursion (SuitsView shape.now) events.now }
    requires few { length events.now < most_puts shape.now }
    ensures accepted { (end : Moment) → RunsTo shape.now (start_moment shape.now) events.now end
        → OfEachView end (λ viewer view. IsAccepted end.queue view) }
    ensures rising { (end : Moment) → RunsTo shape.now (start_moment shape.now) events.now end
        → OfEachView end (λ viewer view. IsRising (places view.items.items)) }
    ensures gaps { (end : Moment) → RunsTo shape.now (start_moment shape.now) events.now end
        → OfEachView end (λ viewer view. IsRising (gap_blocks view.gaps)) }
    ensures causes { (end : Moment) → RunsTo shape.now (start_moment shape.now) events.now end
        → OfEachView end (λ viewer view. All IsCaused view.gaps) }
    ensures reused { (end : Moment) → RunsTo shape.now (start_moment shape.now) events.now end
        → OfEachView end (λ viewer view. All (IsReusedGap shape.now end.queue) view.gaps) }
    ensures complete { (end : Moment) → RunsTo shape.now (start_moment shape.now) events.now end
        → OfEachView end (λ viewer view. viewer.loads ≡ []
        → ShowsThen shape.now viewer.then view) }
{
    let _blocks = shape.blocks();
    look_law();
}
