// Where a device is in a selection, which lasts from a select that got yes to the next finish.

/// In none, in one, or in one that wrote.
#[derive(Clone, Copy, PartialEq, Eq, Debug)]
pub enum Selection {
    Closed,
    Open,
    /// A put got yes in it.
    Written,
}

impl Selection {
    ghost use Rattle.std.specs.Prelude.{◌≡◌};
    ghost use Rattle.device.specs.Selection.{selection_after_select, selection_after_put, is_written};

    // After a select with this answer: inside a selection it opens no other.
    pub(crate) fn after_select(self, yes: bool) -> Selection
        ensures { result ≡ selection_after_select self yes }
    {
        match (self, yes) {
            (Selection::Closed, true) => Selection::Open,
            _ => self,
        }
    }

    // After a put with this answer: outside a selection it does not count.
    pub(crate) fn after_put(self, yes: bool) -> Selection
        ensures { result ≡ selection_after_put self yes }
    {
        match (self, yes) {
            (Selection::Open, true) => Selection::Written,
            _ => self,
        }
    }

    pub(crate) fn is_written(self) -> bool
        ensures { result ≡ is_written self }
    {
        self == Selection::Written
    }
}
