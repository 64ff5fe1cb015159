//! Changes at places of lists. Beyond the end of a list they do nothing.
ghost use Rattle.std.specs.Prelude.{◌≡◌};
ghost use Rattle.iox_lanes_parties.specs.PublisherKeeping.{put_at, counted_up, counted_down};

/// Puts a value at a place of a list; does nothing beyond its end.
pub(crate) fn put<T: Copy>(list: &mut Vec<T>, at: u64, value: T)
    ensures { list.new.items ≡ put_at list.old.items at value }
{
    let at = at as usize;
    if at < list.len() {
        list[at] = value;
    }
}

/// Counts up at a place; does nothing beyond the end of the list.
pub(crate) fn count_up(list: &mut Vec<u64>, at: u64)
    ensures { list.new.items ≡ counted_up list.old.items at }
{
    let at = at as usize;
    if at < list.len() {
        list[at] = list[at].saturating_add(1);
    }
}

/// Counts down at a place; does nothing beyond the end of the list.
pub(crate) fn count_down(list: &mut Vec<u64>, at: u64)
    ensures { list.new.items ≡ counted_down list.old.items at }
{
    let at = at as usize;
    if at < list.len() {
        list[at] = list[at].saturating_sub(1);
    }
}
