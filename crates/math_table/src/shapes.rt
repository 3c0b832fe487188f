ghost use Rattle.std.specs.Prelude.{◌≡◌, ◌≤◌, IfOk};
ghost use Rattle.math_table.specs.Shapes.{run as run_at, part_run, shaped};

use crate::located::Located;
use crate::runs::Run;
use crate::shape::Shape;
use crate::words::Reader;
use face::Fault;

impl Reader<'_> {
    // Entries of so many words each, whose count stands at `count`.
    fn run(&self, words: u8, count: u32, first: u32) -> Result<Run, Fault>
        requires words { words ≤ 5 }
        requires first { first ≤ 262144 }
        ensures value { result ≡ run_at self.now.table.now self.now.key words count first }
        ensures near { IfOk result (λ run. run.first ≤ 262144) }
    {
        let count = self.word(count)?;
        self.words_inside(u32::from(words) * u32::from(count), first)?;
        Ok(Run { count, first })
    }

    // The parts of a construction, whose assembly begins `offset` bytes after it; 0 means no assembly.
    fn part_run(&self, located: Located, offset: u16) -> Result<Run, Fault>
        ensures value { result ≡ part_run self.now.table.now self.now.key located.place offset }
        ensures near { IfOk result (λ run. run.first ≤ 262144) }
    {
        if offset == 0 {
            return Ok(Run { count: 0, first: 0 });
        }
        let place = located.place + u32::from(offset);
        self.run(5, place + 4, place + 6)
    }

    // The construction of the key, if it is known.
    pub(crate) fn shape(&self) -> Result<Option<Shape>, Fault>
        ensures { result ≡ shaped self.now.table.now self.now.key }
    {
        let Some(located) = self.locate()? else {
            return Ok(None);
        };
        let place = located.place;
        let assembly = self.word(place)?;
        let variants = self.run(2, place + 2, place + 4)?;
        let parts = self.part_run(located, assembly)?;
        Ok(Some(Shape {
            least: located.least,
            variants,
            parts,
        }))
    }
}
