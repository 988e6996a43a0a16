ghost use Rattle.std.specs.Prelude.{◌≡◌, ◌+◌, ◌-◌, ◌/◌, ◌^◌, ◌<◌, ◌≤◌, ◌↔◌, IsTrue};

/// What building the tables of a definition may still cost: how many rows may be held at once, of about 512 bytes each, and
/// how much work may be done, in units of about a nanosecond. Once it is spent, patterns have no table.
#[derive(Drop)]
pub struct Budget {
    rows: usize,
    work: usize,
}

/// What it costs to fill a row, in the budget's units of work. The steps of an NFA are paid besides.
const WORK_OF_A_ROW: usize = 1_000;

impl Budget {
    pub fn new(rows: usize, work: usize) -> Budget
        ensures rows { result.rows ≡ rows }
        ensures work { result.work ≡ work }
    {
        Budget { rows, work }
    }

    /// Pays for so many rows. False where fewer are left; then none is left after it.
    pub fn pay_rows(&mut self, rows: usize) -> bool
        ensures enough { IsTrue result ↔ (rows ≤ self.old.rows) }
        ensures left { self.new.rows ≡ self.old.rows - rows }
        ensures work { self.new.work ≡ self.old.work }
    {
        let enough = rows <= self.rows;
        self.rows = self.rows.saturating_sub(rows);
        enough
    }

    /// Pays for a row and for filling it. False where not as much is left.
    pub(crate) fn pay_row(&mut self) -> bool
        ensures enough { IsTrue result → 1 ≤ self.old.rows }
        ensures left { self.new.rows ≡ self.old.rows - 1 }
    {
        self.pay_rows(1) && self.pay_work(WORK_OF_A_ROW)
    }

    /// How many rows are left.
    pub fn rows(&self) -> usize
        ensures { result ≡ self.now.rows }
    {
        self.rows
    }

    /// How much work is left.
    pub(crate) fn work(&self) -> usize
        ensures { result ≡ self.now.work }
    {
        self.work
    }

    /// Gives back so many rows, which are no longer held.
    pub fn free_rows(&mut self, rows: usize)
        ensures left { self.old.rows + rows < 2 ^ 64 → self.new.rows ≡ self.old.rows + rows }
        ensures most { self.new.rows ≤ self.old.rows + rows }
        ensures work { self.new.work ≡ self.old.work }
    {
        self.rows = self.rows.saturating_add(rows);
    }

    /// Pays for so much work. False where less is left; then nothing is left after it.
    pub fn pay_work(&mut self, work: usize) -> bool
        ensures enough { IsTrue result ↔ (work ≤ self.old.work) }
        ensures left { self.new.work ≡ self.old.work - work }
        ensures rows { self.new.rows ≡ self.old.rows }
    {
        let enough = work <= self.work;
        self.work = self.work.saturating_sub(work);
        enough
    }

    /// Sets half of the rows and half of the work aside, and returns them.
    pub fn set_aside(&mut self) -> Budget
        ensures half_rows { result.rows ≡ self.old.rows / 2 }
        ensures half_work { result.work ≡ self.old.work / 2 }
        ensures rows { self.new.rows + result.rows ≡ self.old.rows }
        ensures work { self.new.work + result.work ≡ self.old.work }
    {
        let half = Budget {
            rows: self.rows / 2,
            work: self.work / 2,
        };
        self.rows -= half.rows;
        self.work -= half.work;
        half
    }

    /// Adds what was set aside to this budget again.
    pub fn put_back(&mut self, aside: Budget)
        ensures rows { self.old.rows + aside.rows < 2 ^ 64 →
            self.new.rows ≡ self.old.rows + aside.rows }
        ensures most { self.new.rows ≤ self.old.rows + aside.rows }
        ensures work { self.old.work + aside.work < 2 ^ 64 →
            self.new.work ≡ self.old.work + aside.work }
    {
        self.rows = self.rows.saturating_add(aside.rows);
        self.work = self.work.saturating_add(aside.work);
    }
}
