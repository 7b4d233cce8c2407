// A table of waits with its listed places. In a list of w entries for each of its rows, row 2y has the places of point y that the last round raised,
// and row 2y + 1 the places of its lines; a count for each row says how many.
ghost use Rattle.std.specs.Prelude.{◌≡◌};
ghost use Rattle.rules_listed.specs.Rows.{CellsRow, RaisedRow, LinesRow};

// The waits, with w places for each point, the lists, and the count of each of their rows.
#[derive(Clone, Copy)]
pub struct Table<'a> {
    pub first: &'a [u32],
    pub lists: &'a [u16],
    pub counts: &'a [usize],
    pub width: usize,
}

impl<'a> Table<'a> {
    ghost use Rattle.rules_listed.specs.Parts as parts;

    // The waits of point y, by place.
    pub fn cells(&self, y: usize) -> &'a [u32]
        requires { CellsRow self.now y }
        ensures { result.now ≡ parts.cells self.now y }
    {
        let start = y * self.width;
        &self.first[start..start + self.width]
    }

    // The places of point y that the last round raised.
    pub fn raised(&self, y: usize) -> &'a [u16]
        requires { RaisedRow self.now y }
        ensures { result.now ≡ parts.raised self.now y }
    {
        let start = 2 * y * self.width;
        &self.lists[start..start + self.counts[2 * y]]
    }

    // The places of its lines.
    pub fn lines(&self, y: usize) -> &'a [u16]
        requires { LinesRow self.now y }
        ensures { result.now ≡ parts.lines self.now y }
    {
        let start = (2 * y + 1) * self.width;
        &self.lists[start..start + self.counts[2 * y + 1]]
    }
}
