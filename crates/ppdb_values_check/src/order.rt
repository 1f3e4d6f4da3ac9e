// Whether the items of a list are in order.
ghost use Rattle.std.specs.Prelude.{◌↔◌, AllPairs, IsTrue};

/// What has an order.
pub(crate) trait Ordered {
    /// An item may stand before the other.
    ghost before: { Self → Self → Type 0 };

    /// Whether the item may stand before the next one.
    fn comes_before(&self, next: &Self) -> bool
        ensures { IsTrue result ↔ before self.now next.now };

    /// The order goes on from item to item.
    ghost goes_on: { (a b c : Self) → before a b → before b c → before a c };
}

/// Whether each item may stand before each later one.
pub(crate) fn in_order<T: Ordered>(items: &[T]) -> bool
    ensures { IsTrue result ↔ AllPairs T.before items.now }
{
    for i in 1..items.len() {
        if !items[i - 1].comes_before(&items[i]) {
            return false;
        }
    }
    true
}
