//! The walk that writes a tree: a loop over a small stack, each node stored once, in its final form.
ghost use Rattle.std.specs.Prelude.{◌≡◌, ◌+◌, ◌≤◌, [], ◌∷◌, ◌++◌, length};
ghost use Rattle.growth.specs.Grounds.{rules_of};
ghost use Rattle.growth.specs.Positions.{walk_of, Sound};
ghost use Rattle.growth.specs.Guides.{grown_row};
ghost use Rattle.growth.specs.Frames.{Stands, AllStand, owed, Advanced};
ghost use Rattle.growth.specs.Memory.{pasted};

use crate::Position;
use crate::tally::Growth;
use arrayvec::ArrayVec;
use orders::Node;
use roads::Roads;
use stowage::Stowage;

/// A position whose bookings from the next one on are yet to be tried, along the nodes of an old tree.
#[derive(Clone, Copy, Default)]
struct Frame<'a> {
    old: &'a [Node],
    position: Position,
    // Kept: the loop comes back to a frame, so that the place to try next has to wait in it.
    next: usize,
}

/// The frames from the whole tree down to what grows below the last node: as many as the stops of a van, and one.
type Stack<'a> = ArrayVec<Frame<'a>, 9>;

impl<'a, R: Roads, S: Stowage> Growth<'a, R, S> {
    /// One turn: the next booking of the frame that was on top of the stack is tried; answers how many nodes are then
    /// written.
    fn turn(
        self,
        frame: Frame<'a>,
        stack: &mut Stack<'a>,
        nodes: &mut [Node],
        count: usize,
    ) -> usize
        requires under { AllStand 0 stack.old.items }
        requires top { Stands (length stack.old.items) frame }
        requires room { count + length (owed (rules_of R.Roads S.Stowage self.ground) self.fresh 1 (stack.old.items ++ frame ∷ [])) ≤ length nodes.old }
        ensures { Advanced (rules_of R.Roads S.Stowage self.entry.ground) self.entry.fresh (stack.old.items ++ frame.entry ∷ []) nodes.old count stack.new.items nodes.new result }
    {
        if frame.next == 4 {
            return count;
        }
        stack.push(Frame {
            next: frame.next + 1,
            ..frame
        });
        let tree = Growth {
            old: frame.old,
            position: frame.position,
            ..self
        };
        let Some(root) = tree.try_next(frame.next) else {
            return count;
        };
        nodes[count] = Node {
            booking: root.booking.number(),
            kind: root.booking.kind().number(),
            depth: stack.len() as u32,
            span: 1 + root.below,
            second: root.visit.second,
            cost: root.visit.position.cost,
        };
        stack.push(Frame {
            old: root.old,
            position: root.visit.position,
            next: 0,
        });
        count + 1
    }

    /// Writes the tree into the first of these nodes; answers how many nodes it has.
    pub(crate) fn write(self, nodes: &mut [Node]) -> usize
        requires sound { Sound self.position }
        requires fits { length (grown_row (rules_of R.Roads S.Stowage self.ground) self.fresh self.old.now (walk_of self.position)) ≤ length nodes.old }
        ensures written { nodes.new ≡ pasted nodes.old 0 (grown_row (rules_of R.Roads S.Stowage self.entry.ground) self.entry.fresh self.entry.old.now (walk_of self.entry.position)) }
        ensures count { result ≡ length (grown_row (rules_of R.Roads S.Stowage self.entry.ground) self.entry.fresh self.entry.old.now (walk_of self.entry.position)) }
    {
        let mut stack = Stack::new();
        stack.push(Frame {
            old: self.old,
            position: self.position,
            next: 0,
        });
        let mut count = 0;
        while let Some(frame) = stack.pop() {
            count = self.turn(frame, &mut stack, nodes, count);
        }
        count
    }
}
