// The loops over listed places, one for each shape of rule.
ghost use Rattle.std.specs.Prelude.{◌≡◌, false, ◌<◌};
ghost use Rattle.rules_fill.specs.Shapes as shapes;
ghost use Rattle.rules_listed.specs.Rows.{RaisedRow, LinesRow};

use crate::part::Part;
use crate::table::Table;
use rules_fill::{Propagator, Remover, cleared, joined, propagated, removed, touches};

impl Table<'_> {
    ghost use Rattle.rules_listed.specs.Parts.{SamePart};
    ghost use Rattle.rules_listed.specs.Listed.{PropagateRaisedLent, RemoveLent, ClearRaisedLent, propagate_by, PairsRest, remove_line_by, remove_raised_by, remove_own_by, remove_other_by, remove_by, clear_by};

    // Rules 1 to 3, from the n raised cells of the row's point.
    pub fn propagate_raised(
        &self,
        n: usize,
        marks: &[u8; 256],
        mask: usize,
        by: Propagator,
        part: &mut Part,
    )
        requires propagate_lent { PropagateRaisedLent self.now n marks.now mask by part.old }
        ensures cells_value { part.new.cells.now ≡ propagate_by self.now mask by part.old.cells.now }
        ensures same_part { SamePart part.old part.new }
    {
        let from = self.cells(by.from);
        let start = 2 * (by.from * self.width);
        for &c in &self.lists[start..start + n] {
            let c = usize::from(c);
            let wait = propagated(marks, by, mask, c, u64::from(from[c]));
            part.raise(joined(c, by.add), wait);
        }
    }

    // Rules 4 and 6, from one line (its place cleared) and the lines of the other point.
    fn remove_with(&self, by: Remover, place: usize, wait: u64, part: &mut Part)
        requires remove_lent { RemoveLent self.now by part.old × (place < self.now.width) × (wait < 4294967296) }
        requires lines { LinesRow self.now by.other }
        ensures cells_value { part.new.cells.now ≡ remove_line_by self.now by place wait part.old.cells.now }
        ensures same_part { SamePart part.old part.new }
    {
        let other = self.cells(by.other);
        for &u in self.lines(by.other) {
            let u = usize::from(u);
            if !touches(by.mask, u) { // only the first line has the link or the digit
                let w = removed(by, wait, u, u64::from(other[u]));
                part.raise(joined(place, u), w);
            }
        }
    }

    // The same from each of the raised cells of the part's point.
    fn remove_raised(&self, by: Remover, part: &mut Part)
        requires remove_lent { RemoveLent self.now by part.old }
        requires rows { RaisedRow self.now part.old.point × LinesRow self.now by.other }
        ensures cells_value { part.new.cells.now ≡ remove_raised_by self.now by part.old.point part.old.cells.now }
        ensures same_part { SamePart part.old part.new }
    {
        let own = part.own;
        for &c in self.raised(part.point) {
            let c = usize::from(c);
            if touches(by.mask, c) {
                let rest = cleared(c, by.mask);
                self.remove_with(by, rest, u64::from(own[c]), part);
            }
        }
    }

    // Rules 4 and 6, from the lines of the part's point and one line of the other point, without the mask's bits.
    fn remove_from_lines(&self, by: Remover, place: usize, other: u64, part: &mut Part)
        requires remove_lent { RemoveLent self.now by part.old × (place < self.now.width) × (other < 4294967296) × (shapes.touches by.mask place ≡ false) }
        requires lines { LinesRow self.now part.old.point }
        ensures cells_value { part.new.cells.now ≡ remove_own_by self.now by part.old.point place other part.old.cells.now }
        ensures same_part { SamePart part.old part.new }
    {
        let own = part.own;
        for &c in self.lines(part.point) {
            let c = usize::from(c);
            if touches(by.mask, c) {
                let w = removed(by, u64::from(own[c]), place, other);
                part.raise(joined(cleared(c, by.mask), place), w);
            }
        }
    }

    // The same from each of the raised cells of the other point.
    fn remove_by_raised(&self, by: Remover, part: &mut Part)
        requires remove_lent { RemoveLent self.now by part.old }
        requires rows { RaisedRow self.now by.other × LinesRow self.now part.old.point }
        ensures cells_value { part.new.cells.now ≡ remove_other_by self.now by part.old.point part.old.cells.now }
        ensures same_part { SamePart part.old part.new }
    {
        let other = self.cells(by.other);
        for &u in self.raised(by.other) {
            let u = usize::from(u);
            if !touches(by.mask, u) {
                self.remove_from_lines(by, u, u64::from(other[u]), part);
            }
        }
    }

    // Rules 4 and 6, from pairs of which one is raised: raised cells of the part's point with lines of the other point, and the other way round.
    pub fn remove_pairs(&self, by: Remover, part: &mut Part)
        requires remove_lent { RemoveLent self.now by part.old }
        requires remove_rest { PairsRest self.now by part.old }
        ensures cells_value { part.new.cells.now ≡ remove_by self.now by part.old.point part.old.cells.now }
        ensures same_part { SamePart part.old part.new }
    {
        self.remove_raised(by, part);
        self.remove_by_raised(by, part);
    }

    // Rule 5, at the observing point, from its n raised cells.
    pub fn clear_raised(&self, n: usize, mask: usize, part: &mut Part)
        requires clear_lent { ClearRaisedLent self.now n mask part.old }
        ensures cells_value { part.new.cells.now ≡ clear_by self.now mask part.old.point part.old.cells.now }
        ensures same_part { SamePart part.old part.new }
    {
        let own = part.own;
        let start = 2 * (part.point * self.width);
        for &c in &self.lists[start..start + n] {
            let c = usize::from(c);
            if touches(mask, c) {
                part.raise(cleared(c, mask), u64::from(own[c]));
            }
        }
    }
}
