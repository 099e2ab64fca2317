ghost use Rattle.std.specs.Fn.{FnReturnsAt};
ghost use Rattle.distances.specs.Firsts.{FirstAt};

use entries::entry::Entry;
use stores::store::Store;

// The first entry at the position that passes the test.
pub fn first_at<S: Store, F: Fn(&Entry) -> bool>(
    store: &S,
    position: usize,
    test: F,
) -> Option<Entry>
    requires { F.IsAlwaysCallable test }
    ensures { FirstAt (FnReturnsAt F.Fn test) position (S.Store.entries store.now) result }
{
    for k in 0..store.count() {
        let entry = store.read(k + 1).ok()?;
        if entry.position == position && test(&entry) {
            return Some(entry);
        }
    }
    None
}
