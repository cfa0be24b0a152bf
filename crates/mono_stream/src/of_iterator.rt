// The stream of an iterator.

use crate::iterate::Iter;

/// Returns the stream of the items of `i`.
pub fn iter<I: IntoIterator>(i: I) -> Iter<I::IntoIter>
    ensures { I.into_iter_gives i result.iterator }
{
    Iter {
        iterator: i.into_iter(),
    }
}
