//! The old tree as a guide: which stops to try, and where to look on after each.
ghost use Rattle.std.specs.Prelude.{◌≡◌, length};
ghost use Rattle.orders.specs.Growth.{seek, guide_row};
ghost use Rattle.growth.specs.Guides.{new_to, found};

use orders::Node;

/// Which bookings are new to the old tree, so that it does not guide them: one, none, or all, where the tree grows anew.
#[derive(Clone, Copy)]
pub enum Fresh {
    Only(u32),
    Nobody,
    Everybody,
}

impl Fresh {
    /// Whether a booking is new to the old tree.
    fn includes(self, booking: u32) -> bool
        ensures { result ≡ new_to self booking }
    {
        match self {
            Fresh::Only(one) => one == booking,
            Fresh::Nobody => false,
            Fresh::Everybody => true,
        }
    }

    /// Where to look on in the old tree after a stop of this booking, if that is to be tried; a new booking does not move
    /// on in it.
    pub(crate) fn look_on(self, old: &[Node], booking: u32) -> Option<&[Node]>
        ensures { found result ≡ guide_row (new_to self) booking old.now }
    {
        if self.includes(booking) {
            Some(old)
        } else {
            find_child(old, booking)
        }
    }
}

/// The nodes below the root of this booking, going from sibling to sibling by span, up to a span of 0.
pub(crate) fn find_child(row: &[Node], booking: u32) -> Option<&[Node]>
    ensures { found result ≡ seek (length row.now) booking row.now }
{
    let mut rest = row;
    while let Some((node, behind)) = rest.split_first() {
        if node.span == 0 {
            return None;
        }
        let (below, beside) = behind.split_at((node.span as usize - 1).min(behind.len()));
        if node.booking == booking {
            return Some(below);
        }
        rest = beside;
    }
    None
}
