// The items of a record, two bytes each, by their places.
ghost use Rattle.std.specs.Prelude.{◌≡◌};
ghost use Rattle.std.specs.List.{slice_get};
ghost use Rattle.procedure.specs.Tests.{Decides};
ghost use Rattle.record.specs.Put.{put_at};
ghost use Rattle.record.specs.Walk.{Names, items_in};

// An item is its node, plus this for each mark: a number and no enum, since the walk compares it whole with the one that must stand there.
const MARK: usize = 4096;

// What an opening and a closing add to the node of their repeat.
pub const OPENING: usize = 1 * MARK;

pub const CLOSING: usize = 2 * MARK;

// The item at a place of the record; none past the end.
fn item_at(bytes: &[u8], at: usize) -> Option<usize>
    ensures { result ≡ slice_get (items_in bytes.now) at }
{
    if at < bytes.len() / 2 {
        return Some(usize::from(numbers::two_at(bytes, 2 * at)));
    }
    None
}

// A record and a place in it.
#[derive(Clone, Copy)]
pub struct Reader<'a> {
    pub bytes: &'a [u8],
    pub at: usize,
}

impl<'a> Reader<'a> {
    // The item at the reader's place; none past the end.
    fn next(self) -> Option<usize>
        ensures { result ≡ slice_get (items_in self.entry.bytes.now) self.entry.at }
    {
        item_at(self.bytes, self.at)
    }
}

// One item of the record. Every item that is taken is taken here.
pub fn read_item(bytes: &[u8], at: usize) -> Option<usize>
    ensures { result ≡ slice_get (items_in bytes.now) at }
{
    Reader { bytes, at }.next()
}

// Whether there is an item and it names one of the nodes s to i.
pub fn inside(item: Option<usize>, s: usize, i: usize) -> bool
    ensures { Decides (Names s i item) result }
{
    item.is_some_and(|item| (s..=i).contains(&(item % MARK)))
}

// Puts an item at a place of the space, where its two bytes fit.
pub fn put(space: &mut [u8], at: usize, item: usize)
    ensures { space.new ≡ put_at space.old at item }
{
    if at < space.len() / 2 {
        numbers::put_two(space, 2 * at, item as u64);
    }
}
