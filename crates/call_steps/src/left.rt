//! What is left in the words of a queue that no thread shares any more.
ghost use Rattle.std.specs.Prelude.{◌≡◌, ◌+◌, ◌<◌, ◌≤◌, [], ◌++◌, length};
ghost use Rattle.rail.specs.Items.{placed};
ghost use Rattle.cursor_word.specs.Cursor.{place_span};
ghost use Rattle.cursor_word.specs.Layout.{word_count};
ghost use Rattle.machine.specs.Entries.{entry_at};
ghost use Rattle.call_laws.specs.Left.{is_unreserved, unreserved_in};
ghost use Rattle.machine.specs.Entries.{left_in};

use cursor_word::{Cursor, Shape, entry_word, reserved};
use rail::{Batch, Entry, Placed};
use step_log::Stopped;

/// Gives the batch the items of so many places from `from` on, with the words that stand there.
pub fn read_left(stopped: &Stopped, shape: &Shape, from: u64, count: u64, left: &mut Batch)
    requires words { length stopped.now ≡ word_count shape.now }
    requires places { from + count ≤ place_span shape.now }
    requires room { count ≤ left.old.spare }
    ensures items { left.new.items ≡ left.old.items
        ++ left_in shape.now stopped.now from (from + count) }
{
    let _blocks = shape.blocks();
    for place in from..from + count {
        left.push(Placed {
            place,
            words: read_entry(stopped, shape, place),
        });
    }
}

/// The same of those items whose places no take has reserved.
pub fn read_unreserved(stopped: &Stopped, shape: &Shape, from: u64, count: u64, left: &mut Batch)
    requires words { length stopped.now ≡ word_count shape.now }
    requires places { from + count ≤ place_span shape.now }
    requires room { count ≤ left.old.spare }
    ensures items { left.new.items ≡ left.old.items
        ++ unreserved_in shape.now stopped.now from (from + count) }
{
    let _blocks = shape.blocks();
    for place in from..from + count {
        if is_unreserved(stopped, shape, place) {
            left.push(Placed {
                place,
                words: read_entry(stopped, shape, place),
            });
        }
    }
}

fn is_unreserved(stopped: &Stopped, shape: &Shape, place: u64) -> bool
    requires words { length stopped.now ≡ word_count shape.now }
    requires place { place < place_span shape.now }
    ensures { result ≡ is_unreserved shape.now stopped.now (placed place []) }
{
    let _blocks = shape.blocks();
    let at = Cursor::at_place(shape, place);
    stopped.word(reserved(shape, at.block)) <= at.pack()
}

fn read_entry(stopped: &Stopped, shape: &Shape, place: u64) -> Entry
    requires words { length stopped.now ≡ word_count shape.now }
    requires place { place < place_span shape.now }
    ensures { result ≡ entry_at shape.now stopped.now place }
{
    let width = shape.width();
    let at = Cursor::at_place(shape, place);
    let mut words = [0; 8];
    for word in 0..width {
        words[word as usize] = stopped.word(entry_word(shape, at, word));
    }
    Entry::new(&words[..width as usize])
}
