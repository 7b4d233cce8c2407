// One point's part of the next table.
ghost use Rattle.std.specs.Prelude.{◌≡◌, ◌<◌, ◌≤◌, length};
ghost use Rattle.rules.specs.Tables.{raise_cell};
ghost use Rattle.rules_listed.specs.Notes.{Noted};

use crate::table::Table;

// A point, its cells in the table, and in the next table, some raised; the places of those are the first `count` notes.
#[derive(Drop)]
pub struct Part<'a> {
    pub point: usize,
    pub own: &'a [u32],
    pub cells: &'a mut [u32],
    pub notes: &'a mut [u16],
    pub count: usize,
    ghost narrow: { length own.now ≤ 65536 },
    ghost noted: { ∥ Noted (length own.now) own.now 0 cells.now notes.now count ∥₁ },
}

impl<'a> Part<'a> {
    ghost use Rattle.rules_listed.specs.Parts.{NewPart, MadePart, SamePart};

    // A point's part before its rules: it has the table's cells, and none is noted.
    pub fn new(
        table: &Table<'a>,
        point: usize,
        cells: &'a mut [u32],
        notes: &'a mut [u16],
    ) -> Part<'a>
        requires { NewPart table.now point cells.old notes.old }
        ensures { MadePart table.now point cells.entry notes.entry result }
    {
        Part {
            point,
            own: table.cells(point),
            cells,
            notes,
            count: 0,
        }
    }

    // Raises a cell; one that leaves the table's wait is noted.
    pub fn raise(&mut self, place: usize, wait: u64)
        requires place_in { (place < length self.old.own.now) × (wait < 4294967296) }
        ensures cells_value { self.new.cells.now ≡ raise_cell place wait self.old.cells.now }
        ensures same_part { SamePart self.old self.new }
    {
        let Part {
            own,
            cells,
            notes,
            count,
            ..
        } = self;
        let was = cells[place];
        if wait <= u64::from(was) {
            return;
        }
        cells[place] = wait as u32;
        if was == own[place] {
            notes[*count] = place as u16;
            *count += 1;
        }
    }
}
