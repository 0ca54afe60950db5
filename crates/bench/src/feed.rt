// What the program does with the bytes of its input: they are gathered into lines, and each line is obeyed when it ends. Of a line
// as many bytes are kept as tell what it means, however long it is. Where a write failed nothing more is done.
// Takes any image and any bytes.
ghost use Rattle.std.specs.Prelude.{◌≡◌, [], ◌∷◌, ◌≤◌, take};
ghost use Rattle.line.specs.Lines.{line_of, fuse_after};
ghost use Rattle.line.specs.Gathering.{kept};
ghost use Rattle.obey.specs.Obeying.{image_after};

use streams::Told;
use text::NEWLINE;

// What is held from byte to byte: of the line so far the bytes that are kept, which are the buffer's first `count`, and the fuse of the
// next request.
#[derive(Clone, Copy)]
pub struct Held {
    buf: [u8; 201],
    pub count: usize,
    pub fuse: u64,
    ghost room: { count ≤ kept },
}

impl Held {
    ghost use Rattle.bench.specs.Steps.{Dialogue, line_ended};
    ghost use Rattle.bench.specs.Feeding.{Stands, Follows, Fed};

    // At the start no byte is held.
    pub fn new(fuse: u64) -> Self
        ensures empty { result.count ≡ 0 }
        ensures fuse_value { result.fuse ≡ fuse }
    {
        Held {
            buf: [0; 201],
            count: 0,
            fuse,
        }
    }

    // The line that is held ends. (The hint says that few bytes end a line: without it the machine code jumps twice at each byte that ends
    // none; docs/LOOK-BACK.md, d1.)
    #[cold]
    fn line_end(&mut self, rt: &(impl Print + Eprint), img: &mut [u8]) -> Result<(), Told>
        ensures img_after { img.new ≡ image_after img.old (line_of (take self.old.count self.old.buf)) self.old.fuse }
        ensures fuse_value { self.new.fuse ≡ fuse_after self.old.fuse (line_of (take self.old.count self.old.buf)) }
    {
        obey::line_end(rt, img, &self.buf[..self.count], &mut self.fuse)
    }

    // A byte: a newline ends the line, and any other is held.
    fn byte(&mut self, rt: &(impl Print + Eprint), img: &mut [u8], b: u8) -> Result<(), Told>
        ensures { Follows img.old self.old (b ∷ []) img.new self.new }
    {
        if b == NEWLINE {
            let said = self.line_end(rt, img);
            self.count = 0;
            return said;
        }
        self.count = line::gather(&mut self.buf, self.count, b);
        Ok(())
    }

    // The bytes of a chunk, one after the other, up to where a write failed.
    pub fn bytes(
        &mut self,
        rt: &(impl Print + Eprint),
        img: &mut [u8],
        chunk: &[u8],
    ) -> Result<(), Told>
        ensures { Fed img.old self.old chunk.now img.new self.new result }
    {
        for &b in chunk {
            self.byte(rt, img, b)?;
        }
        Ok(())
    }

    // The end of the input: a last line that no newline ended counts if it has a byte. What is held stays as it is. (The hint is for the place
    // that the code after `run` gets in the program: inlined there, this moved the loop of the padding test across a cache line, and a
    // request on a pool that is almost empty took a third more time; docs/LOOK-BACK.md.)
    #[inline(never)]
    pub fn rest(&self, rt: &(impl Print + Eprint), img: &mut [u8]) -> Result<(), Told>
        ensures { (s : Dialogue) → Stands img.old self.now s → img.new ≡ (line_ended s).image }
    {
        if self.count == 0 {
            return Ok(());
        }
        let mut last = *self;
        last.line_end(rt, img)
    }
}
